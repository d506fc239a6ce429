// Sealing a tray: it only looks.
ghost use Rattle.std.specs.Prelude.{◌≡◌};
ghost use Rattle.tray.specs.Sealing.{only_passed, sealed, sealing_by};

use crate::counts::{Counts, count};
use crate::seat::Seat;
use crate::tray::SEATS;
use answer::Refusal;

// Whether the tray is sealed: some seat is in use, and all in use have passed. What isn't forty long is refused.
#[tactic(auto, using(crate::proofs::SealingLaws::sealing_by_counts))]
pub fn seal(tray: &[Seat]) -> Result<bool, Refusal>
    ensures { result ≡ sealed tray.now }
{
    seal_by(tray.len(), count(tray))
}

#[tactic(auto, unfolding(crate::specs::Sealing::sealing_by))]
fn seal_by(seats: usize, counts: Counts) -> Result<bool, Refusal>
    ensures { result ≡ sealing_by seats counts }
{
    if seats != SEATS {
        return Err(Refusal::NotFortySeats);
    }
    Ok(counts.only_passed())
}

impl Counts {
    // Some seat is in use, and all that are have passed.
    fn only_passed(self) -> bool
        ensures { result ≡ only_passed self }
    {
        self.passed != 0 && self.failed == 0 && self.unjudged == 0
    }
}
