// The passes over a branching in one character, by a plan of the branching that serves all characters: its states and its least cost.
#![tactic(auto)]

pub mod characters;
pub mod planning;
