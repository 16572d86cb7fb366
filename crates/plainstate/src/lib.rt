// The plain state's bytes: the front, then an entry for each logical page; how a call opens them, and whether they are sound.
#![tactic(auto)]

mod bits;
pub mod counts;
pub mod entries;
mod naming;
pub mod opening;
pub mod places;
pub mod sound;
