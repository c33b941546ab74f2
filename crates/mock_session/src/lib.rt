// The stand-in's session, lent: its record of transaction and last reset stays with whoever owns it, and thin calls over the by-value steps change it
// there.

#![tactic(auto)]

pub mod bulk;
pub mod record;
