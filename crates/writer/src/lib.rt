// Sample recordings, written from bytes.
#![tactic(auto)]

mod card;
mod entry;
mod steps;
mod string;
mod ticks;

pub use crate::card::Card;
pub use crate::entry::write;
