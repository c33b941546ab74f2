// What stands below every part of the stand-in device: `cells` says which variety of flash it has, `config` what it says of itself, `error` what it
// answers, `range` the limits of a lent flash that its refusals name.

#![tactic(auto)]

pub mod cells;
pub mod config;
pub mod error;
pub mod range;
