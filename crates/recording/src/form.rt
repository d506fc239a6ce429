// Whether a recording is of good form, and if not, what it is refused for.
ghost use Rattle.std.specs.Prelude.{Ok, Err, MatchResult, ◌≤◌, length, ◌≡◌};
ghost use Rattle.recording.specs.{Layout.most_steps, Layout.file_length};
ghost use Rattle.recording.specs.{Form.form_of, Form.body_form, Ticks.steps_from};

use crate::good_form::Recording;
use crate::header::Header;
use crate::step::Step;
use answer::{Refusal, Refused};

pub fn check_form(file: &[u8]) -> Result<Recording<'_>, Refused>
    ensures { MatchResult result
        (λ r. (r.file.now ≡ file.now) × (form_of file.now ≡ Ok r.steps)) (λ refused. form_of file.now ≡ Err refused) }
{
    if file.len() < Header::SIZE {
        return Err(Refusal::ShortFile.into());
    }
    let header = Header::read(file);
    header.test(file.len())?;
    let steps = check_steps(file, header)?;
    Ok(Recording { file, steps })
}

// Refusals 6 to 8: each step, first to last, and after all of them the total.
fn check_steps(file: &[u8], header: Header) -> Result<usize, Refused>
    requires { (header.steps ≤ most_steps) × (file_length header.steps ≤ length file.now) }
    ensures { result ≡ body_form header (steps_from file.now 0 header.steps) }
{
    let steps = header.steps as usize;
    let mut sum: u32 = 0;
    for index in 0..steps {
        let step = Step::read(file, index);
        if let Err(refusal) = step.test() {
            return Err(Refused {
                refusal,
                step: index as u32,
            });
        }
        sum += step.duration as u32;
    }
    if header.total != sum {
        return Err(Refusal::WrongTotal.into());
    }
    Ok(steps)
}
