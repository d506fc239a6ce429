// What the wires show in a step, as one byte: the lines, and in the first tick of a marked step the bit above them. A byte and no struct:
// `shown_in` of specs/Wires.antt is that number.
ghost use Rattle.std.specs.Prelude.{◌<◌, ◌≡◌};
ghost use Rattle.recording.specs.Layout.{line_bound};
ghost use Rattle.vcd.specs.Steps.{shown_first, shown_last};

use recording::Step;

// The bit above the lines' four: ticks were lost.
const LOST: u8 = 16;

// In the first tick, which alone has the step's mark.
#[tactic(auto, unfolding(crate::specs::Steps::shown_first))]
pub(crate) fn shown_first(step: Step) -> u8
    requires { step.lines < line_bound }
    ensures { result ≡ shown_first step }
{
    if step.marked() {
        return step.lines + LOST;
    }
    step.lines
}

// In the last tick: the lines alone, unless it is the first too.
#[tactic(auto, using(recording::proofs::Tests::tests), unfolding(crate::specs::Steps::shown_last))]
pub(crate) fn shown_last(step: Step) -> u8
    requires { step.lines < line_bound }
    ensures { result ≡ shown_last step }
{
    if step.duration > 1 {
        return step.lines;
    }
    shown_first(step)
}
