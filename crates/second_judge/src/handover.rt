// The rows of the handover, "offset 0 being the CLK pull after bit 8".
ghost use Rattle.second_judge.specs.Phases.{LeadsBoth};

use crate::limits;
use crate::numbers::Verdict;
use crate::phase::{Next, Phase};
use crate::tick::Tick;

// Offset 0. "Bit 8 zero and offset 0 shows (1,1): 26." DATA was steady while valid, so that bit 8 is the DATA of the
// tick before: with DATA pulled now, bit 8 was one where DATA is steady and zero where it is not.
// A choice: a one that is released at offset 0 itself is "(1,0) at offset up to 100", open from offset 0.
pub fn first(tick: Tick) -> Result<Next, Verdict>
    ensures { LeadsBoth result }
{
    match (tick.lines.clock, tick.lines.data) {
        (true, true) if tick.is_steady() => Ok(Next::Go(Phase::Carried)),
        (true, true) => Err(Verdict::OutOfTurn),
        (_, _) => Ok(Next::Go(Phase::Open)),
    }
}

// Open: "CLK released while DATA has been open: 26. (1,0) stays. (1,1): the take; go to B."
// A choice: offset 1,000 showing (1,1) is a take; 35 is for (1,0).
pub fn open(tick: Tick) -> Result<Next, Verdict>
    ensures { LeadsBoth result }
{
    match (tick.lines.clock, tick.lines.data) {
        (false, _) => Err(Verdict::OutOfTurn),
        (true, false) => Ok(Next::Stay),
        (true, true) => Ok(Next::Go(Phase::Hold)),
    }
}

// Carried: "DATA released in the same tick as CLK: 26. (1,1) stays. (1,0) at offset up to 100 (H): open from here;
// later 26. (0,1) at offset 101 or more: go to C; sooner 36." The 101 is the hold of 100 after a take at offset 1.
// A choice: (0,0) is 26 at every offset, also where (0,1) would be 36; carried itself has no limit.
pub fn carried(tick: Tick) -> Result<Next, Verdict>
    ensures { LeadsBoth result }
{
    match (tick.lines.clock, tick.lines.data) {
        (false, false) => Err(Verdict::OutOfTurn),
        (true, true) => Ok(Next::Stay),
        (true, false) if tick.offset <= limits::CARRIED_UP_TO => Ok(Next::OpenFromHere),
        (true, false) => Err(Verdict::OutOfTurn),
        (false, true) if tick.offset < limits::CARRIED_TAKE + limits::HOLD_AFTER_TAKE => Err(
            Verdict::Hurried,
        ),
        (false, true) => Ok(Next::HandOver),
    }
}
