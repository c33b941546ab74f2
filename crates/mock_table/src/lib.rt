// The stand-in's transaction table: from the flash's variety and block size, the session, the flash's number of sectors and a bulk call to an answer,
// the next session and an effect.
// It sees no byte of the flash: what an effect does to lent bytes, and whether the cells took it, is for the device to apply and to say.

#![tactic(auto)]

pub mod outcome;
pub mod reading;
mod rows;
pub mod session;
mod ways;
pub mod writing;
