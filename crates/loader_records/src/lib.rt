// The records of a loader file, after boot.rs: the header, its three lists, an entry, and the time of a release. Each is read from the first bytes of
// a slice.

#![tactic(auto)]

pub mod answer;
pub mod entry;
pub mod header;
pub mod list;
pub mod time;
