// The current device of the language of cases, and the raw calls on it.
//
// Test support: its functions promise only that they are safe and end.

#![tactic(auto)]

pub mod devices;
