// The plain engine's calls: format, lookup, discard, flush, collection.
#![tactic(auto)]

pub mod block;
pub mod collect;
pub mod discard;
pub mod flush;
pub mod format;
pub mod lookup;
mod moving;
