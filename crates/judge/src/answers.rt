// The answer that a reading comes to.
ghost use Rattle.std.specs.Prelude.{◌≡◌};
ghost use Rattle.recording.specs.Ticks.{steps_from};
ghost use Rattle.judge.specs.{Judged.step_holding, Reading.state_answer};

use answer::Answer;
use reader::State;
use recording::Recording;

// The step that holds a tick, or the number of steps where none does: looked for back from the end, near which most verdicts fall.
fn step_holding(recording: Recording, tick: u32) -> u32
    ensures { result ≡ step_holding tick (steps_from recording.entry.file.now 0 recording.entry.steps) }
{
    let mut begin = recording.total();
    for index in (0..recording.steps).rev() {
        if begin <= tick {
            return index as u32 + 1;
        }
        begin -= recording.step(index).duration as u32;
    }
    0
}

// The answer where the recording runs out, or a verdict fell, in this state.
pub(crate) fn state_answer(recording: Recording, state: State) -> Answer
    ensures { result ≡ state_answer (steps_from recording.entry.file.now 0 recording.entry.steps) state }
{
    let decision = state.decision();
    let verdict = decision.verdict;
    let step = step_holding(recording, decision.tick);
    Answer {
        number: verdict.number(),
        tick: decision.tick,
        step,
        count: state.count,
    }
}
