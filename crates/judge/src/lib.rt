// A recording judged into lent buffers.
#![tactic(auto)]

mod answers;
mod entry;
mod handed;
mod reading;

pub use crate::entry::{judge, judge_command};
