// The language of cases, the side that is written: what a line is told, by value, and its printing; and the values and refusals that more than one
// program tells.
//
// Test support: its functions promise only that they are safe and end.

#![tactic(auto)]

pub mod answer;
pub mod out;
pub mod refusals;
pub mod told;
pub mod values;
