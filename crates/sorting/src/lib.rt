// A batch: its writes sorted, repeated logical pages kept once.
// Kept: logical pages and sources are two lists in step: the sources are the plan, which the C interface lends as numbers.
#![tactic(auto)]

mod digits;
pub mod order;
pub mod sort;
