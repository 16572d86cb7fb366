// Collection: the valid pages of the blocks that have the fewest are moved together, and these blocks are erased.
#![tactic(auto)]

pub mod collect;
mod erasing;
mod moving;
mod validity;
