// A second judge of bus recordings, made from document 01 ("What is required and the exact rules") and the requests #101
// ("Command transfers") and #103 ("Recorder overruns") of document 02 alone.
// It goes by steps and durations: in each step the first tick is tried against the rows of the phase, and of the ticks
// after it, which show the same lines, only the limit of the phase is asked. "A choice" marks the places where a
// document was read in one of several ways.
#![tactic(auto)]

ghost use Rattle.std.specs.Prelude.{◌≡◌};
ghost use Rattle.second_judge.specs.Numbers.{Among, refusals};
ghost use Rattle.second_judge.specs.Promise.{Answered};

mod attention;
mod bits;
mod byte;
mod entry;
mod handover;
mod layout;
mod limits;
mod lines;
mod next;
mod numbers;
mod patience;
mod phase;
mod place;
mod reading;
mod refusals;
mod rows;
mod storing;
mod testing;
mod tick;
mod trying;

use entry::Entry;
use refusals::Refused;

// "An answer is a number, a tick, a step and a count." A number and no enum: `Answered` says
// of both entries which it is among, and whoever compares judges holds it against another's number.
#[derive(Clone, Copy, PartialEq, Eq)]
pub struct Finding {
    pub number: u32,
    pub tick: u32,
    pub step: u32,
    pub count: u32,
}

impl From<Refused> for Finding {
    ghost from_gives = { λ _ finding. Among refusals finding.number × (finding.tick ≡ 0) × (finding.count ≡ 0) };

    fn from(refused: Refused) -> Finding {
        Finding {
            number: refused.refusal as u32,
            tick: 0,
            step: refused.step,
            count: 0,
        }
    }
}

// A refusal or a verdict of document 01. "Every refusal has tick 0 and count 0, .. and no lent byte or number changes":
// of the lent memory it takes the lengths alone. A cut has the total of ticks and the number of steps, every other
// verdict less of both, and a recording is complete only if its last step leaves the lines at rest. Document 02's #103:
// 40 is given at the first marked step unless another verdict falls before it. What the lent memory holds beyond the
// count's places stays.
pub fn judge_by_steps(file: &[u8], bytes: &mut [u8], ledger: &mut [u32]) -> Finding
    ensures { Answered Entry.Plain result file.now bytes.old bytes.new
        ledger.old ledger.new }
{
    judge(Entry::Plain, file, bytes, ledger)
}

// The same of a command recording, document 02's #101, with its own verdicts; complete only if its last step leaves ATN
// released. An entry of its own, as the paper has two.
pub fn judge_command_by_steps(file: &[u8], bytes: &mut [u8], ledger: &mut [u32]) -> Finding
    ensures { Answered Entry.Command result file.now bytes.old bytes.new
        ledger.old ledger.new }
{
    judge(Entry::Command, file, bytes, ledger)
}

// The refusals are tested first, "in this order", with either entry.
fn judge(entry: Entry, file: &[u8], bytes: &mut [u8], ledger: &mut [u32]) -> Finding
    ensures { Answered entry result file.now bytes.old bytes.new
        ledger.old ledger.new }
{
    match refusals::test(file, bytes.len(), ledger.len()) {
        Ok(steps) => reading::read_steps(entry, file, steps, bytes, ledger),
        Err(refused) => Finding::from(refused),
    }
}
