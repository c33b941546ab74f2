// The calls of the language of cases on a number or on the bytes of a reply. Test support: its functions promise only that they are safe and end.

#![tactic(auto)]

pub mod numbers;
pub mod replies;
