// A recording as a Value Change Dump (IEEE 1364), for waveform viewers.
#![tactic(auto)]

mod changes;
mod entry;
mod heading;
mod numbers;
mod shown;
mod window;
mod wires;

pub use crate::entry::part;
