// What the blocks of the protocol share: byte order, and a signature compared.

#![tactic(auto)]

pub mod order;
pub mod signature;

// Bytes in a sector.
pub const SECTOR_SIZE: u64 = 512;
