// Learning: the records of a sorted batch.
#![tactic(auto)]

pub mod runs;
