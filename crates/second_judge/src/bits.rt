// "Bits, eight, least significant first, pulled is one": the rows of set-up and valid.
ghost use Rattle.second_judge.specs.Phases.{LeadsBoth};

use crate::numbers::Verdict;
use crate::phase::{Next, Phase};
use crate::tick::Tick;
use crate::{handover, limits};

// Set-up: "CLK pulled for 1 to 200 ticks (H), DATA free". "A 201st is 34" is the limit on staying. Valid: "Its first tick
// must show the DATA of the last set-up tick, otherwise 33." That is the DATA of the tick before.
pub fn set_up(tick: Tick) -> Result<Next, Verdict>
    ensures { LeadsBoth result }
{
    if tick.lines.clock {
        Ok(Next::Stay)
    } else if tick.is_steady() {
        Ok(Next::Go(Phase::Valid))
    } else {
        Err(Verdict::DataMoved)
    }
}

// Valid: "DATA changing while valid: 33." "CLK pulled after fewer than 20 valid ticks (003): 32." Otherwise the next
// set-up begins, or after bit 8 the handover. "A 201st valid tick (H): 34" is the limit on staying.
// A choice: a 201st tick with CLK released and DATA changed is 33, its row standing before that of 34; a tick with CLK
// pulled is no valid tick, so that DATA may change in it, and it may follow 200 valid ones.
pub fn valid(tick: Tick) -> Result<Next, Verdict>
    ensures { LeadsBoth result }
{
    if !tick.lines.clock {
        if tick.is_steady() {
            Ok(Next::Stay)
        } else {
            Err(Verdict::DataMoved)
        }
    } else if tick.offset < limits::VALID_LEAST {
        Err(Verdict::ValidTimeShort)
    } else if tick.bits < limits::BITS {
        Ok(Next::Go(Phase::SetUp))
    } else {
        handover::first(tick)
    }
}
