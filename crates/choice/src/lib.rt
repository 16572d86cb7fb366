// The blocks that a collection takes, by a tally of valid pages: which pages are valid is the caller's to say.
#![tactic(auto)]

pub mod choose;
pub mod taking;
