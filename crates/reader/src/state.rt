// The state of the reading, and one tick of it.
ghost use Rattle.std.specs.Prelude.{◌^◌, ◌<◌, ◌≡◌};
ghost use Rattle.transfer.specs.Moves.{is_decided, held_byte, decision_of};
ghost use Rattle.reader.specs.States.{next_state, first_state, Countable};

use crate::moment::Moment;
use answer::Fault;
use transfer::{Byte, Decision, Limits, Phase, Tick};

// `tick` is the next tick to be read, or the deciding one; `count` bytes were handed over.
#[derive(Clone, Copy)]
pub struct State {
    pub phase: Phase,
    pub tick: u32,
    pub count: u32,
}

impl State {
    pub fn new() -> State
        ensures { result ≡ first_state }
    {
        State {
            phase: Phase::Start,
            tick: 0,
            count: 0,
        }
    }

    // One tick. A verdict stands for good; then come ticks lost before it, and then what ATN means.
    #[tactic(auto, using(crate::proofs::Heeding::next_by_tests))]
    pub fn next(self, limits: Limits, tick: Tick) -> State
        requires { Countable self }
        ensures { result ≡ next_state limits self tick }
    {
        if self.is_decided() {
            return self;
        }
        let moment = Moment {
            state: self,
            limits,
            lines: tick.lines,
        };
        if tick.marked {
            return moment.stop(Fault::Overrun);
        }
        if moment.is_under_way() {
            return moment.rows();
        }
        moment.turned()
    }

    // A verdict has fallen.
    pub fn is_decided(self) -> bool
        ensures { result ≡ is_decided self.phase }
    {
        matches!(&self.phase, Phase::Decided(..))
    }

    // The byte that is held: the one that a tick hands over which raises the count.
    pub fn byte(self) -> Byte
        requires { (held_byte self.phase).take < 2 ^ 32 }
        ensures { result ≡ held_byte self.phase }
    {
        match self.phase {
            Phase::Hold(_, value, take, let_go) => Byte {
                value,
                let_go,
                take,
            },
            Phase::Carried(_, value, since) => Byte {
                value,
                let_go: since + 1,
                take: since + 1,
            },
            // Zeros and no `Option`: the contract says `held_byte`, which is `no_byte` in every other phase.
            _ => Byte {
                value: 0,
                let_go: 0,
                take: 0,
            },
        }
    }

    // What the recording comes to if it runs out here.
    pub fn decision(self) -> Decision
        ensures { result ≡ decision_of self.phase self.tick }
    {
        match self.phase {
            Phase::End(finish) | Phase::Finished(finish) => Decision::complete(finish),
            Phase::Decided(fault) => Decision::broken(fault, self.tick),
            _ => Decision::cut(self.tick),
        }
    }
}
