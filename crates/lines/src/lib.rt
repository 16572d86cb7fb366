// The lines of the listing program: which call a line of a script is, and the lines that are printed.
#![tactic(auto)]

pub mod print;
pub mod read;
