// The Wagner tree: the whole build, and the finished tree as branch records.
#![tactic(auto)]

pub mod answer;
pub mod build;
mod closeness;
mod keys;
pub mod order;
pub mod records;
