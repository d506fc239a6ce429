// The handover: from the CLK pull after bit 8 to the receiver's take.
#![tactic(auto, unfolding(transfer::specs::Phases::next, transfer::specs::Phases::handover, crate::specs::States::follow))]

ghost use Rattle.std.specs.Prelude.{◌≡◌};
ghost use Rattle.transfer.specs.Phases.{handover};
ghost use Rattle.reader.specs.States.{follow, read_in};

use crate::moment::Moment;
use crate::state::State;
use answer::Fault;
use transfer::Phase;

impl Moment {
    // Offset 0: the CLK pull after bit 8.
    pub(crate) fn handover(self, end_mark: bool, value: u8, bit: bool) -> State
        ensures { result ≡ follow self.state (handover end_mark value self.state.tick bit self.lines.«data») }
    {
        let now = self.state.tick;
        match (bit, self.lines.data) {
            (false, true) => self.stop(Fault::OutOfTurn),
            (_, false) => self.go(Phase::Open(end_mark, value, now, now)),
            (true, true) => self.go(Phase::Carried(end_mark, value, now)),
        }
    }

    // Open: DATA has been seen released.
    pub(crate) fn open(self, end_mark: bool, value: u8, since: u32, let_go: u32) -> State
        ensures { result ≡ read_in self.limits self.state (Phase.Open end_mark value since let_go) self.lines }
    {
        let now = self.state.tick;
        match (self.lines.clk, self.lines.data) {
            (false, _) => self.stop(Fault::OutOfTurn),
            (true, false) if self.below(self.limits.take_latest, since) => {
                self.go(Phase::Open(end_mark, value, since, let_go))
            }
            (true, false) => self.stop(Fault::ReceiverTimeout),
            (true, true) => self.go(Phase::Hold(end_mark, value, now, let_go)),
        }
    }

    // Carried: bit 8 one, DATA pulled without a break, by the sender, the receiver or both.
    pub(crate) fn carried(self, end_mark: bool, value: u8, since: u32) -> State
        ensures { result ≡ read_in self.limits self.state (Phase.Carried end_mark value since) self.lines }
    {
        let limits = self.limits;
        let now = self.state.tick;
        match (self.lines.clk, self.lines.data) {
            (false, false) => self.stop(Fault::OutOfTurn),
            (true, true) => self.go(Phase::Carried(end_mark, value, since)),
            (true, false) if self.up_to(limits.keep_most, since) => {
                self.go(Phase::Open(end_mark, value, since, now))
            }
            (true, false) => self.stop(Fault::OutOfTurn),
            (false, true) if self.up_to(limits.between_bytes, since) => self.stop(Fault::Hurried),
            (false, true) => self.hand(Phase::ReadyToSend(true, end_mark)),
        }
    }
}
