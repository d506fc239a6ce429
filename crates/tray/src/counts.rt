// How many seats of a tray are in each state.
ghost use Rattle.std.specs.Prelude.{◌≡◌, Some};
ghost use Rattle.tray.specs.Counts.{counts_of, counts_text};

use crate::seat::{Seat, SeatState};
use std::fmt;

#[derive(Clone, Copy)]
pub struct Counts {
    pub passed: usize,
    pub failed: usize,
    pub unjudged: usize,
    pub vacant: usize,
}

// `37 passed, 1 failed, 1 unjudged, 1 vacant`
impl fmt::Display for Counts {
    ghost output = { λ counts. Some (counts_text counts) };

    fn fmt<W: fmt::Write>(&self, f: &mut fmt::Formatter<W>) -> fmt::Result {
        let Counts {
            passed,
            failed,
            unjudged,
            vacant,
        } = *self;
        write!(
            f,
            "{passed} passed, {failed} failed, {unjudged} unjudged, {vacant} vacant"
        )
    }
}

// Of all seats, however many there are.
#[tactic(auto, using(crate::proofs::CountLaws::count_at_most))]
pub fn count(tray: &[Seat]) -> Counts
    ensures { result ≡ counts_of tray.now }
{
    let mut counts = Counts {
        passed: 0,
        failed: 0,
        unjudged: 0,
        vacant: 0,
    };
    for seat in tray {
        match seat.state {
            SeatState::Passed => counts.passed += 1,
            SeatState::Failed => counts.failed += 1,
            SeatState::Unjudged => counts.unjudged += 1,
            SeatState::Vacant => counts.vacant += 1,
        }
    }
    counts
}
