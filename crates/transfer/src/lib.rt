// One transfer, of data or of commands: what a tick shows, the times, the phases of document 01 and what they come to.
#![tactic(auto)]

mod decision;
mod limits;
mod lines;
mod phase;
mod tick;

pub use crate::decision::Decision;
pub use crate::limits::{Entry, Limits};
pub use crate::lines::Lines;
pub use crate::phase::{Byte, Phase};
pub use crate::tick::Tick;
