// The language of cases, loader files: records, answers and walks as numbers, and their printing.
//
// Test support: its functions promise only that they are safe and end.

#![tactic(auto)]

pub mod shown;
pub mod told;
pub mod walked;
