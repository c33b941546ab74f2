// The operations of a device in the full USB protocol: `giving` takes what is received for one, `starts` has each at its start, `steps` the steps of
// any.

#![tactic(auto)]

pub mod giving;
pub mod starts;
pub mod steps;
