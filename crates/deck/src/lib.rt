// A deck of 512-byte blocks: `bench` deals one block after the other, `dealing` one block to the stand-in, `verdict` is what a block comes to.

#![tactic(auto)]

pub mod bench;
pub mod dealing;
pub mod verdict;
