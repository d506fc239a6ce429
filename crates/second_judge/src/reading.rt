// "Reading goes from state to state and stops for good at the deciding tick": here from step to step.
ghost use Rattle.std.specs.Prelude.{[], ◌∷◌, ◌≡◌, ◌<◌};
ghost use Rattle.second_judge.specs.declared.phase.Phase.TheVariants.{End};
ghost use Rattle.second_judge.specs.Numbers.{Among};
ghost use Rattle.second_judge.specs.Promise.{Judged, Timed};
ghost use Rattle.second_judge.specs.Recording.{Passed};

use crate::byte::Byte;
use crate::entry::Entry;
use crate::lines::Lines;
use crate::numbers::Verdict;
use crate::phase::Phase;
use crate::place::Place;
use crate::tick::Tick;
use crate::{Finding, layout, next, patience, storing};

// Lines that stay as they are can turn the reading only in their first tick, so that the later ticks of a step are
// asked for the phase's limit alone. That a step goes on with the lines of the one before changes nothing, unless it is
// marked: its first tick then is one more tick that stays. `before` has the lines of the tick before.
// #103: "The first tick of a marked step gives verdict 40, before ATN is looked at, also in E, at tick 0 and after #101's
// finish."
// A choice: so before the phase's rows and limits too, and a byte that this tick would have handed over is not.
#[tactic(auto, using(crate::proofs::Laws::kept_same, crate::proofs::Laws::ticks_none))]
pub fn read_steps(
    entry: Entry,
    file: &[u8],
    steps: u32,
    bytes: &mut [u8],
    ledger: &mut [u32],
) -> Finding
    requires { Passed file.now steps }
    ensures { Judged entry result file.now bytes.old bytes.new
        ledger.old ledger.new }
{
    let mut place = Place::FIRST;
    let mut byte = Byte::default();
    let mut before = Lines::default();
    let mut count: u32 = 0;
    let mut tick: u32 = 0;
    for step in 0..steps {
        let read = layout::step_at(file, step);
        if read.mark == layout::MARKED {
            return Verdict::Overrun.at(tick, step, count);
        }
        let end = tick + read.duration;
        let lines = Lines::from(read.lines);
        let first = Tick::read(place, byte, tick, lines, before);
        let next = match next::next(entry, first) {
            Ok(next) => next,
            Err(verdict) => return verdict.at(tick, step, count),
        };
        count = storing::hand_over(next, byte.value, place, count, bytes, ledger);
        byte = byte.after(next, lines);
        place = place.after(next, tick, step);
        if let Some(fallen) = patience::found_in(entry, place, count, end) {
            return fallen.verdict.at(fallen.tick, step, count);
        }
        before = lines;
        tick = end;
    }
    ran_out(place, tick, steps, count)
}

// "The recording running out gives 20 in E, 22 anywhere else." "20: the finish tick; 22: total ticks and n." #101:
// "Running out gives 20 with the finish tick, or 22 before it." E's first tick is the finish with either entry.
// A choice: steps are counted from 0, as S1 shows, whose last step of 25 is its step 24.
fn ran_out(place: Place, total: u32, steps: u32, count: u32) -> Finding
    requires { place.phase ≡ End → (place.since < total) × (place.since_step < steps) }
    ensures { Among (20 ∷ 22 ∷ []) result.number × (result.count ≡ count) × Timed result total steps
        × (result.number ≡ 20 → place.phase ≡ End) }
{
    match place.phase {
        Phase::End => Verdict::Complete.at(place.since, place.since_step, count),
        _ => Verdict::Cut.at(total, steps, count),
    }
}
