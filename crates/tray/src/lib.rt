// A tray of forty seats, for the gate: drives are loaded into seats, judged and removed, and a tray is sealed when all its drives have
// passed.
#![tactic(auto)]

mod counts;
mod passing;
mod sealing;
mod seat;
mod tray;

pub use crate::counts::{Counts, count};
pub use crate::passing::passes;
pub use crate::sealing::seal;
pub use crate::seat::{Seat, SeatState};
pub use crate::tray::{SEATS, load, post, remove};
