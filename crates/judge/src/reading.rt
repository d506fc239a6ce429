// The reading of a recording: step after step, and in each step tick after tick, idle ticks in one move.
ghost use Rattle.std.specs.Prelude.{◌≡◌};
ghost use Rattle.judge.specs.Reading.{RoomLent, reached, read_into, ticks_from};

use crate::handed;
use reader::State;
use recording::Recording;
use transfer::{Limits, Lines, Tick};

// The state after the last tick, or at the deciding one. Each byte and its two ticks are stored as they are handed over.
pub(crate) fn read(
    recording: Recording,
    limits: Limits,
    bytes: &mut [u8],
    ledger: &mut [u32],
) -> State
    requires { RoomLent bytes.old ledger.old }
    ensures { reached result bytes.new ledger.new
        ≡ read_into limits (ticks_from recording.entry.file.now 0 recording.entry.steps) bytes.old ledger.old }
{
    let mut state = State::new();
    'steps: for index in 0..recording.steps {
        let step = recording.step(index);
        // The mark is the first tick's alone. A marked tick decides, so no later tick of a marked step is read.
        let tick = Tick {
            marked: step.marked(),
            lines: Lines::from(step.lines),
        };
        // A `while` and no `for`: how many ticks a turn takes is known only at its end.
        let mut left = step.duration;
        while left > 0 {
            left -= 1;
            let next = state.next(limits, tick);
            handed::store(bytes, ledger, state, next);
            state = next;
            if next.is_decided() {
                break 'steps;
            }
            // Those of the ticks left that only add one to the tick, in one move.
            let idle = next.idle(limits, left);
            state = next.later(idle);
            left -= idle;
        }
    }
    state
}
