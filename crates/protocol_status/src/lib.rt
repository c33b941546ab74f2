// The status block, read and written, and what an operation's finish refuses with.

#![tactic(auto)]

pub mod failure;
pub mod report;
