// Where the reading stands: the phase, and the ticks that matter.
ghost use Rattle.std.specs.Prelude.{◌≡◌, ◌≤◌};
ghost use Rattle.second_judge.specs.Phases.{phase_after};

use crate::limits;
use crate::phase::{Next, Phase};

// Where an entry may stand is asked in clauses, and not a ghost field here: a struct with one takes no `..self`. The ticks are no
// numbers of the phases: each is asked for some phases after the one that sets it, and those between would have to hand it on.
#[derive(Clone, Copy)]
pub struct Place {
    pub phase: Phase,
    // "Offsets count from a phase's first tick, the one that leads into it"; in carried and open, from the CLK pull
    // after bit 8.
    pub since: u32,
    // The step that holds that tick.
    pub since_step: u32,
    // D's first tick, for the 512, which the acknowledgement does not restart.
    pub ready_for_data: u32,
    // The tick at which the sender lets go of DATA after bit 8; where that bit is zero, offset 0.
    pub let_go: u32,
    // The tick at which the receiver takes DATA.
    pub take: u32,
}

impl Place {
    // Before the first tick.
    pub const FIRST: Place = Place {
        phase: Phase::Start,
        since: 0,
        since_step: 0,
        ready_for_data: 0,
        let_go: 0,
        take: 0,
    };

    // The place after this tick of this step. Carried: "take and letting go both at offset 1", unless DATA is seen
    // released later and both are set anew.
    pub fn after(self, next: Next, tick: u32, step: u32) -> Place
        requires { (self.since ≤ tick) × (self.since_step ≤ step) × (tick ≤ 2000000000) }
        ensures in_time { (result.since ≤ tick) × (result.since_step ≤ step) }
        ensures follows { result.phase ≡ phase_after self.phase next }
    {
        let phase = self.phase.after(next);
        let here = Place {
            phase,
            since: tick,
            since_step: step,
            ..self
        };
        let both = tick + limits::CARRIED_TAKE;
        match next {
            // Field by field, and not `self`: with that copied whole a judgement takes a quarter more instructions.
            Next::Stay => Place { ..self },
            Next::OpenFromHere => Place {
                phase,
                let_go: tick,
                ..self
            },
            Next::Go(Phase::Hold) => Place { take: tick, ..here },
            Next::Go(Phase::ReadyForData) => Place {
                ready_for_data: tick,
                ..here
            },
            Next::Go(Phase::Carried) => Place {
                let_go: both,
                take: both,
                ..here
            },
            Next::Go(Phase::Open) => Place {
                let_go: tick,
                ..here
            },
            Next::Go(_) | Next::HandOver | Next::Finish => here,
        }
    }
}
