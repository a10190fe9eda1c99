// The listing of a job: blocks of lines, put into a lent list; and the call from a file's bytes to the bytes of its listing.
#![tactic(auto)]

mod blocks;
pub mod call;
mod job;
pub mod order;
