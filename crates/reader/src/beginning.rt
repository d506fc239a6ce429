// Phases A start, B hold and C ready to send.
#![tactic(auto, unfolding(transfer::specs::Phases::next, crate::specs::States::follow))]

ghost use Rattle.std.specs.Prelude.{◌≡◌};
ghost use Rattle.reader.specs.States.{read_in};

use crate::moment::Moment;
use crate::state::State;
use answer::Fault;
use transfer::Phase;

impl Moment {
    // A
    pub(crate) fn start(self) -> State
        ensures { result ≡ read_in self.limits self.state Phase.Start self.lines }
    {
        match (self.lines.clk, self.lines.data) {
            (false, _) if self.state.tick == 0 => self.stop(Fault::BadStart),
            (false, _) => self.stop(Fault::OutOfTurn),
            (true, true) => self.go(Phase::FirstHold),
            (true, false) if self.below(self.limits.presence, 0) => self.go(Phase::Start),
            (true, false) => self.stop(Fault::NoReceiver),
        }
    }

    // B, before any byte
    pub(crate) fn first_hold(self) -> State
        ensures { result ≡ read_in self.limits self.state Phase.FirstHold self.lines }
    {
        match (self.lines.clk, self.lines.data) {
            (true, true) => self.go(Phase::FirstHold),
            (false, true) => self.go(Phase::ReadyToSend(false, false)),
            (_, false) => self.stop(Fault::OutOfTurn),
        }
    }

    // B, after a byte: entering C hands it over
    pub(crate) fn hold(self, end_mark: bool, value: u8, take: u32, let_go: u32) -> State
        ensures { result ≡ read_in self.limits self.state (Phase.Hold end_mark value take let_go) self.lines }
    {
        let limits = self.limits;
        match (self.lines.clk, self.lines.data) {
            (true, true) => self.go(Phase::Hold(end_mark, value, take, let_go)),
            (false, true) if self.below(limits.between_bytes, take) => self.stop(Fault::Hurried),
            (false, true) => self.hand(Phase::ReadyToSend(true, end_mark)),
            (_, false) => self.stop(Fault::OutOfTurn),
        }
    }

    // C
    pub(crate) fn ready_to_send(self, some_handed: bool, ended: bool) -> State
        ensures { result ≡ read_in self.limits self.state (Phase.ReadyToSend some_handed ended) self.lines }
    {
        let now = self.state.tick;
        match (self.lines.clk, self.lines.data) {
            (false, true) => self.go(Phase::ReadyToSend(some_handed, ended)),
            (false, false) if ended => self.go(Phase::End(now)),
            (false, false) => self.go(Phase::ReadyForData(some_handed, now)),
            (true, _) => self.stop(Fault::OutOfTurn),
        }
    }
}
