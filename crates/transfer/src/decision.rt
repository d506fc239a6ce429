// What a recording comes to.
ghost use Rattle.std.specs.Prelude.{◌≡◌};
ghost use Rattle.transfer.specs.Moves.{complete_at, cut_at, broken_at};

use answer::{Fault, Verdict};

// A verdict with its deciding tick.
#[derive(Clone, Copy)]
pub struct Decision {
    pub verdict: Verdict,
    pub tick: u32,
}

impl Decision {
    // Complete, at the finish tick.
    pub fn complete(finish: u32) -> Decision
        ensures { result ≡ complete_at finish }
    {
        Decision {
            verdict: Verdict::Complete,
            tick: finish,
        }
    }

    // Cut, at the total of ticks.
    pub fn cut(total: u32) -> Decision
        ensures { result ≡ cut_at total }
    {
        Decision {
            verdict: Verdict::Cut,
            tick: total,
        }
    }

    // Broken, at the tick that decided.
    pub fn broken(fault: Fault, tick: u32) -> Decision
        ensures { result ≡ broken_at fault tick }
    {
        Decision {
            verdict: Verdict::Broken(fault),
            tick,
        }
    }
}
