// One seat of a tray, and the rule of what a call makes of it.
ghost use Rattle.std.specs.Prelude.{◌≡◌};
ghost use Rattle.tray.specs.Seats.{in_use, changed};

use answer::Refusal;

// Document 02: "A seat is vacant, unjudged, passed or failed."
#[derive(Clone, Copy, PartialEq, Eq)]
pub enum SeatState {
    Vacant,
    Unjudged,
    Passed,
    Failed,
}

#[derive(Clone, Copy)]
pub struct Seat {
    pub state: SeatState,
}

// What is asked of a seat. Of a post only matters whether it passes.
#[derive(Clone, Copy)]
pub enum Call {
    Load,
    Remove,
    Post(bool),
}

impl Seat {
    // The rule of one seat: what it is after a call.
    #[tactic(auto, unfolding(crate::specs::Seats::changed))]
    pub fn called(self, call: Call) -> Result<Seat, Refusal>
        ensures { result ≡ changed self call }
    {
        let state = match (call, self.is_in_use()) {
            (Call::Load, false) => SeatState::Unjudged,
            (Call::Load, true) => return Err(Refusal::SeatInUse),
            (_, false) => return Err(Refusal::VacantSeat),
            (Call::Remove, true) => SeatState::Vacant,
            (Call::Post(true), true) => SeatState::Passed,
            (Call::Post(false), true) => SeatState::Failed,
        };
        Ok(Seat { state })
    }

    fn is_in_use(self) -> bool
        ensures { result ≡ in_use self }
    {
        self.state != SeatState::Vacant
    }
}
