// Document 02's #101: what ATN says in a command recording, "tested before the phase's rows".
ghost use Rattle.std.specs.Prelude.{false, ◌≡◌, ◌⊎◌};
ghost use Rattle.second_judge.specs.declared.numbers.Verdict.TheVariants.{AttentionReleased, MovedAfterTheEnd};
ghost use Rattle.second_judge.specs.declared.phase.Next.TheVariants.{Stay, Finish};
ghost use Rattle.second_judge.specs.Phases.{GoesOn, Stands};

use crate::entry::Entry;
use crate::numbers::Verdict;
use crate::phase::{Next, Phase};
use crate::tick::Tick;
use crate::{limits, trying};

// What a tick of a command recording leads to. "Phases as in document 01, but without 23 and end mark": no byte has an
// end mark here, so that C never leads to E.
#[tactic(auto, using(crate::proofs::Phases::goes_on))]
pub fn command(tick: Tick) -> Result<Next, Verdict>
    requires { Stands Entry.Command tick.phase }
    ensures { GoesOn Entry.Command tick result }
{
    match tick.phase {
        Phase::End => after_the_finish(tick),
        _ if tick.lines.attention => trying::by_rows(
            Entry::Command,
            Tick {
                end_mark: false,
                ..tick
            },
        ),
        _ => released(tick),
    }
}

// "The finish is the first tick with ATN released; it must show (1,1), in B or in a carried handover, 100 or more ticks
// after the last take". "ATN released otherwise, too soon or in B before any byte included, gives 39". B's offset 0 is the
// take, carried has it at offset 1.
// A choice: the tick is in the phase that it is read in, so that (1,1) in the tick of a take, or of the CLK pull after
// bit 8, is 39. With ATN released at tick 0 it is 39 too, and never 25.
fn released(tick: Tick) -> Result<Next, Verdict>
    ensures finish_or_39 { (result ≡ Ok Finish) ⊎ (result ≡ Err AttentionReleased) }
{
    let long_enough = match tick.phase {
        Phase::Hold if limits::BITS <= tick.bits => limits::HOLD_AFTER_TAKE,
        Phase::Carried => limits::CARRIED_TAKE + limits::HOLD_AFTER_TAKE,
        _ => return Err(Verdict::AttentionReleased),
    };
    match (tick.lines.clock, tick.lines.data) {
        (true, true) if long_enough <= tick.offset => Ok(Next::Finish),
        (_, _) => Err(Verdict::AttentionReleased),
    }
}

// "After the finish only a pull of ATN matters: 37."
fn after_the_finish(tick: Tick) -> Result<Next, Verdict>
    ensures stay_or_37 { ((result ≡ Ok Stay) × (tick.lines.attention ≡ false)) ⊎ (result ≡ Err MovedAfterTheEnd) }
{
    if tick.lines.attention {
        Err(Verdict::MovedAfterTheEnd)
    } else {
        Ok(Next::Stay)
    }
}
