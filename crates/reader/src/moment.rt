// One tick of a reading that is under way, and what it may do: lead on, hand a byte over, decide.
#![tactic(auto, unfolding(crate::specs::States::follow, transfer::specs::Phases::next))]

ghost use Rattle.std.specs.Prelude.{◌≡◌};
ghost use Rattle.transfer.specs.Phases.{Go, Stop};
ghost use Rattle.reader.specs.States.{follow, handed_on, read_in, Countable};

use crate::state::State;
use answer::Fault;
use transfer::{Limits, Lines, Phase};

// The state, what the transfer is judged by, and what the tick shows. `countable`: the next tick and the next count fit. Only
// `State::next` makes one.
#[derive(Clone, Copy)]
pub(crate) struct Moment {
    pub(crate) state: State,
    pub(crate) limits: Limits,
    pub(crate) lines: Lines,
    ghost countable: { Countable state },
}

impl Moment {
    // The tick leads on into a phase, or keeps it.
    pub(crate) fn go(self, phase: Phase) -> State
        ensures { result ≡ follow self.state (Go phase) }
    {
        State {
            phase,
            tick: self.state.tick + 1,
            ..self.state
        }
    }

    // The tick hands the byte that is held over and leads on into a phase.
    pub(crate) fn hand(self, phase: Phase) -> State
        ensures { result ≡ handed_on self.state phase }
    {
        State {
            phase,
            tick: self.state.tick + 1,
            count: self.state.count + 1,
        }
    }

    // The tick decides.
    pub(crate) fn stop(self, fault: Fault) -> State
        ensures { result ≡ follow self.state (Stop fault) }
    {
        State {
            phase: Phase::Decided(fault),
            ..self.state
        }
    }

    // The rows of the phase that the state is in.
    pub(crate) fn rows(self) -> State
        ensures { result ≡ read_in self.limits self.state self.state.phase self.lines }
    {
        match self.state.phase {
            Phase::Start => self.start(),
            Phase::FirstHold => self.first_hold(),
            Phase::Hold(end_mark, value, take, let_go) => self.hold(end_mark, value, take, let_go),
            Phase::ReadyToSend(some_handed, ended) => self.ready_to_send(some_handed, ended),
            Phase::ReadyForData(some_handed, since) => self.ready_for_data(some_handed, since),
            Phase::Acknowledgement(some_handed, since, ready_tick) => {
                self.acknowledgement(some_handed, since, ready_tick)
            }
            Phase::Acknowledged(some_handed, since, ready_tick) => {
                self.acknowledged(some_handed, since, ready_tick)
            }
            Phase::SetUp(end_mark, value, last, since, bits_left) => {
                self.set_up(end_mark, value, last, since, bits_left)
            }
            Phase::Valid(end_mark, value, bit, since, bits_left) => {
                self.valid(end_mark, value, bit, since, bits_left)
            }
            Phase::Open(end_mark, value, since, let_go) => self.open(
                end_mark, value, since, let_go,
            ),
            Phase::Carried(end_mark, value, since) => self.carried(end_mark, value, since),
            Phase::End(finish) => self.end(finish),
            Phase::Finished(..) => self.stop(Fault::MovedAfterEnd),
            Phase::Decided(fault) => self.stop(fault),
        }
    }
}
