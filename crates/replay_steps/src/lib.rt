// The things of the language of cases that a caller steps: the current operation and the current upload, each with the calls on it.
//
// Test support: its functions promise only that they are safe and end.

#![tactic(auto)]

pub mod held;
pub mod operations;
pub mod uploads;
