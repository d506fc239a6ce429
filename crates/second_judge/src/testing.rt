// The steps' refusals: "Steps are tested first to last, 6 before 7 in one step." A choice: so a 7 in an earlier step
// goes before a 6 in a later one, and both before 8 and 9.
ghost use Rattle.std.specs.Prelude.{◌≡◌, ◌+◌, ◌*◌, ◌≤◌, ◌<◌, length, OnOk};
ghost use Rattle.second_judge.specs.Recording.{step_count, total_ticks, Passed};

use crate::layout::{Header, Step};
use crate::numbers::Refusal;
use crate::refusals::Refused;
use crate::{layout, lines};

// Rows 6 to 8 of the table.
#[tactic(auto, using(crate::proofs::Laws::ticks_none, crate::proofs::Laws::ticks_more))]
pub fn test_steps(file: &[u8], header: &Header) -> Result<(), Refused>
    requires { (header.now.steps ≤ 16000) × (16 + 4 * header.now.steps ≤ length file.now)
        × (header.now.steps ≡ step_count file.now) × (header.now.total_ticks ≡ total_ticks file.now) }
    ensures { OnOk result (Passed file.now header.now.steps) }
{
    let mut total: u32 = 0;
    for step in 0..header.steps {
        let read = layout::step_at(file, step);
        test_step(&read).map_err(|refusal| Refused { refusal, step })?;
        total += read.duration;
    }
    if header.total_ticks != total {
        return Err(Refused::from(Refusal::TotalTicks));
    }
    Ok(())
}

// Rows 6 and 7 of the table, for one step. #103: "Refusal 7 now means other line bits or a last byte above 1."
fn test_step(read: &Step) -> Result<(), Refusal>
    ensures { OnOk result (0 < read.now.duration) }
{
    if read.duration == 0 {
        return Err(Refusal::DurationZero);
    }
    if lines::ALL_FOUR < read.lines || layout::MARKED < read.mark {
        return Err(Refusal::OtherBits);
    }
    Ok(())
}
