// Phases D ready for data, F acknowledgement and G: whether the byte to come has the end mark.
#![tactic(auto, unfolding(transfer::specs::Phases::next))]

ghost use Rattle.std.specs.Prelude.{◌≡◌};
ghost use Rattle.transfer.specs.Phases.{long_silence};
ghost use Rattle.reader.specs.States.{read_in};

use crate::moment::Moment;
use crate::state::State;
use answer::Fault;
use transfer::{Entry, Phase};

// D lasted too long.
fn long_silence(entry: Entry) -> Fault
    ensures { result ≡ long_silence entry }
{
    match entry {
        Entry::Plain => Fault::EndMarkNotAcknowledged,
        Entry::Command => Fault::EndMarkUnderAttention,
    }
}

impl Moment {
    // D
    pub(crate) fn ready_for_data(self, some_handed: bool, since: u32) -> State
        ensures { result ≡ read_in self.limits self.state (Phase.ReadyForData some_handed since) self.lines }
    {
        let limits = self.limits;
        let now = self.state.tick;
        match (self.lines.clk, self.lines.data) {
            (true, data) if self.below(limits.end_mark, since) => {
                self.go(Phase::SetUp(false, 0, data, now, 7))
            }
            (true, _) => self.stop(Fault::OutOfTurn),
            (false, true) if self.below(limits.end_mark, since) => self.stop(Fault::OutOfTurn),
            (false, true) => self.go(Phase::Acknowledgement(some_handed, now, since)),
            (false, false) if self.below(limits.end_mark_latest, since) => {
                self.go(Phase::ReadyForData(some_handed, since))
            }
            (false, false) => self.stop(long_silence(limits.entry)),
        }
    }

    // F
    pub(crate) fn acknowledgement(self, some_handed: bool, since: u32, ready_tick: u32) -> State
        ensures { result ≡ read_in self.limits self.state (Phase.Acknowledgement some_handed since ready_tick) self.lines }
    {
        let limits = self.limits;
        let now = self.state.tick;
        match (self.lines.clk, self.lines.data) {
            (true, _) => self.stop(Fault::OutOfTurn),
            (false, true) if self.below(limits.acknowledge_most, since) => {
                self.go(Phase::Acknowledgement(some_handed, since, ready_tick))
            }
            (false, true) => self.stop(Fault::AcknowledgementLong),
            (false, false) if self.below(limits.acknowledge_least, since) => {
                self.stop(Fault::AcknowledgementShort)
            }
            (false, false) => self.go(Phase::Acknowledged(some_handed, now, ready_tick)),
        }
    }

    // G; the 512 goes on counting from the first tick of D
    pub(crate) fn acknowledged(self, some_handed: bool, since: u32, ready_tick: u32) -> State
        ensures { result ≡ read_in self.limits self.state (Phase.Acknowledged some_handed since ready_tick) self.lines }
    {
        let limits = self.limits;
        let now = self.state.tick;
        match (self.lines.clk, self.lines.data) {
            (false, true) => self.stop(Fault::OutOfTurn),
            (true, data) if self.up_to(limits.response, since) => {
                self.go(Phase::SetUp(true, 0, data, now, 7))
            }
            (true, _) => self.stop(Fault::LateClock),
            (false, false) if self.below(limits.sender_timeout, ready_tick) => {
                self.go(Phase::Acknowledged(some_handed, since, ready_tick))
            }
            (false, false) if some_handed => self.stop(Fault::SenderTimeout),
            (false, false) => self.stop(Fault::EmptyStream),
        }
    }
}
