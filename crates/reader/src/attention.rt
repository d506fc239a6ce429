// What ATN means: it is looked at before the phase's rows.
#![tactic(auto, unfolding(transfer::specs::Moves::finishing, crate::specs::States::follow))]

ghost use Rattle.std.specs.Prelude.{◌≡◌};
ghost use Rattle.reader.specs.States.{is_under_way, turned_in, released_in, finished_in};

use crate::moment::Moment;
use crate::state::State;
use answer::Fault;
use transfer::{Entry, Phase};

impl Moment {
    // Whether ATN is as it is while a transfer goes on: released for data, pulled for commands. Then the rows of the phase are read.
    pub(crate) fn is_under_way(self) -> bool
        ensures { result ≡ is_under_way self.limits.entry self.lines.atn }
    {
        match self.limits.entry {
            Entry::Plain => !self.lines.atn,
            Entry::Command => self.lines.atn,
        }
    }

    // ATN is the other way round.
    pub(crate) fn turned(self) -> State
        ensures { result ≡ turned_in self.limits self.state self.limits.entry self.lines }
    {
        match self.limits.entry {
            Entry::Plain => self.stop(Fault::Attention),
            Entry::Command => self.released(),
        }
    }

    // ATN is released: the finish, or a tick after it, or out of place. In a carried handover the take is at offset 1.
    #[tactic(auto, using(crate::proofs::Heeding::any_byte, crate::proofs::Heeding::from_offset_1))]
    fn released(self) -> State
        ensures { result ≡ released_in self.limits self.state self.state.phase self.lines }
    {
        let limits = self.limits;
        match self.state.phase {
            Phase::Hold(_, _, take, _) => self.finish(self.below(limits.between_bytes, take)),
            Phase::Carried(_, _, since) => self.finish(self.up_to(limits.between_bytes, since)),
            Phase::Finished(finish) => self.go(Phase::Finished(finish)),
            _ => self.stop(Fault::AttentionReleased),
        }
    }

    // The finish hands the last byte over, if it comes in time and both still hold their lines.
    fn finish(self, too_soon: bool) -> State
        ensures { result ≡ finished_in self.state too_soon self.lines }
    {
        match (too_soon, self.lines.clk, self.lines.data) {
            (false, true, true) => self.hand(Phase::Finished(self.state.tick)),
            _ => self.stop(Fault::AttentionReleased),
        }
    }
}
