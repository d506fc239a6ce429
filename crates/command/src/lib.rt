// The class of each of the 256 bytes that a command transfer can hand over.
#![tactic(auto)]

mod class;
mod table;

pub use crate::class::Class;
pub use crate::table::class_of;
