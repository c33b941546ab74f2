// All that stays from line to line in the language of cases, the current operation, upload and device together, and the calls on any of it, runs
// among them.
//
// Test support: its functions promise only that they are safe and end.

#![tactic(auto)]

pub mod runs;
pub mod world;
