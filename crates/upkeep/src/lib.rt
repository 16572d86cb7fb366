// The calls that make a state anew or smaller, or forget a logical page: format, compaction, discard.
#![tactic(auto)]

pub mod compact;
pub mod discard;
pub mod format;
