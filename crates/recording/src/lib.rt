// The recording file: its header and steps, the test of its form, and the refusals that the test gives.
#![tactic(auto)]

mod fields;
mod form;
mod good_form;
mod header;
mod step;

pub use crate::form::check_form;
pub use crate::good_form::Recording;
pub use crate::header::Header;
pub use crate::step::Step;
