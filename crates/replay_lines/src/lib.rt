// The language of cases (differential/LANGUAGE.md), the side that is read: standard input cut into lines, and a line read token by token.
//
// This is test support, as is every crate whose name begins with `replay_`: its functions promise only that they are safe and end.

#![tactic(auto)]

pub mod buffer;
pub mod data;
pub mod input;
pub mod names;
pub mod tokens;
