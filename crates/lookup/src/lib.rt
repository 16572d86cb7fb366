// The calls that only read: lookup, agreement, a group's listing, telling why.
#![tactic(auto)]

pub mod agree;
mod astray;
mod compare;
pub mod list;
pub mod lookup;
mod pages;
mod side;
pub mod why;
