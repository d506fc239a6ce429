// What a tick leads to, unless a mark has decided it (#103): each entry asks ATN first, and then the rows.
ghost use Rattle.second_judge.specs.Phases.{GoesOn, Stands};

use crate::entry::Entry;
use crate::numbers::Verdict;
use crate::phase::Next;
use crate::tick::Tick;
use crate::{attention, trying};

// "A tick with ATN pulled gives 23 before anything else".
// A choice: also at tick 0 and in E. A byte that such a tick would have handed over is not handed over.
// To E, and on in E, a tick leads only with the lines at rest.
#[tactic(auto, using(crate::proofs::Phases::goes_on))]
pub fn next(entry: Entry, tick: Tick) -> Result<Next, Verdict>
    requires { Stands entry tick.phase }
    ensures { GoesOn entry tick result }
{
    match entry {
        Entry::Plain if tick.lines.attention => Err(Verdict::Attention),
        Entry::Plain => trying::by_rows(entry, tick),
        Entry::Command => attention::command(tick),
    }
}
