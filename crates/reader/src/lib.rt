// A transfer read tick after tick: the state of the reading, and one tick of it by what ATN means and by the rows of its phase.
#![tactic(auto)]

mod attention; // what ATN means, and the finish of commands
mod beginning; // phases A, B and C
mod bits; // set-up and valid
mod end; // phase E
mod end_mark; // phases D, F and G
mod handover;
mod idle; // ticks that only add one to the tick
mod moment; // one tick that is under way: where it leads
mod offset;
mod state;

pub use crate::state::State;
