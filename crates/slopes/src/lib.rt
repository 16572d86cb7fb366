// The slopes of approximate runs: how far they go from a place of a sorted batch, and which of the longest run's is wrong least often.
#![tactic(auto)]

pub mod counting;
pub mod lines;
pub mod reach;
pub mod windows;
