// How far a tick is from the first tick of a phase. Only ever compared, never subtracted: a phase keeps its first tick.
#![tactic(auto, unfolding(transfer::specs::Phases::below, transfer::specs::Phases::up_to))]

ghost use Rattle.std.specs.Prelude.{◌≡◌};
ghost use Rattle.transfer.specs.Phases.{below, up_to};

use crate::moment::Moment;

impl Moment {
    // The tick is fewer than `limit` ticks after `since`.
    pub(crate) fn below(self, limit: u32, since: u32) -> bool
        ensures { result ≡ below limit since self.state.tick }
    {
        (self.state.tick as u64) < (since as u64) + (limit as u64)
    }

    // The tick is at most `limit` ticks after `since`. Not `below` of `limit + 1`, which may not fit.
    pub(crate) fn up_to(self, limit: u32, since: u32) -> bool
        ensures { result ≡ up_to limit since self.state.tick }
    {
        (self.state.tick as u64) <= (since as u64) + (limit as u64)
    }
}
