// The state's bytes: the device numbers, the blocks' counts, the marks of discarded logical pages, the groups; how a call opens them,
// and the lookup that several calls make.
// Kept: a state's bytes and its device numbers are two parameters of what writes. Tried: a struct with `&mut [u8]` beside them and the fact
// `Shaped`; nothing is known of the bytes after a call but by a clause on the reference's ghost name at each function, which is no plainer.
#![tactic(auto)]

pub mod counts;
pub mod groups;
pub mod marks;
pub mod numbers;
pub mod opening;
pub mod seek;
