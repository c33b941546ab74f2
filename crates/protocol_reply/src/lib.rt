// What a device replies, each kind in its own wrapper, and the counts of a sector operation.

#![tactic(auto)]

pub mod flags;
pub mod info;
pub mod media;
pub mod size;
