// The stand-in device, after rockusb-mock: its record, with a lent flash and a lent area store.

#![tactic(auto)]

pub mod config;
pub mod device;
