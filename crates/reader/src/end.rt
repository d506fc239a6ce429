// Phase E end.
#![tactic(auto, unfolding(transfer::specs::Phases::next))]

ghost use Rattle.std.specs.Prelude.{◌≡◌};
ghost use Rattle.reader.specs.States.{read_in};

use crate::moment::Moment;
use crate::state::State;
use answer::Fault;
use transfer::Phase;

impl Moment {
    pub(crate) fn end(self, finish: u32) -> State
        ensures { result ≡ read_in self.limits self.state (Phase.End finish) self.lines }
    {
        match (self.lines.clk, self.lines.data) {
            (false, false) => self.go(Phase::End(finish)),
            _ => self.stop(Fault::MovedAfterEnd),
        }
    }
}
