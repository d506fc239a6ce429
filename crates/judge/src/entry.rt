// The judge's entries: for a data transfer and for commands.
ghost use Rattle.std.specs.Prelude.{◌≡◌};
ghost use Rattle.transfer.specs.Limits.{standard_limits, command_limits};
ghost use Rattle.judge.specs.{Judged.leaves, Judged.judged, Promise.JudgePromise};

use crate::{answers, reading};
use answer::{Answer, Refusal};
use transfer::Limits;

// The places that a judgement needs: under these it is refusal 9.
const BYTE_ROOM: usize = 1000;

const LEDGER_ROOM: usize = 2000;

// Judges one data transfer. Promised, first: the answer and both lent buffers, whole, are what `judged` gives. Second, demand 3: where the
// recording is of good form, with enough room lent, it is complete with a string exactly if a sender and a receiver that keep their rules
// give it and no step is marked, and the ledger shows the earliest such pair.
// It is an `Answer` and no `Result`: that is what `station_judge` hands on to C, and what `JudgePromise` speaks of.
pub fn judge(file: &[u8], bytes: &mut [u8], ledger: &mut [u32]) -> Answer
    ensures { JudgePromise standard_limits file.now bytes.old ledger.old
        (leaves result bytes.new ledger.new) }
{
    judge_by(file, Limits::standard(), bytes, ledger)
}

// Judges one command transfer. Promised is the same by the command entry's limits: ATN is pulled until the finish, and no byte has the end
// mark. An entry of its own and no parameter, as C has it: each names what it promises.
pub fn judge_command(file: &[u8], bytes: &mut [u8], ledger: &mut [u32]) -> Answer
    ensures { JudgePromise command_limits file.now bytes.old ledger.old
        (leaves result bytes.new ledger.new) }
{
    judge_by(file, Limits::command(), bytes, ledger)
}

// Tests the form and the room, and reads the recording by these limits.
fn judge_by(file: &[u8], limits: Limits, bytes: &mut [u8], ledger: &mut [u32]) -> Answer
    ensures { leaves result bytes.new ledger.new
        ≡ judged limits file.now bytes.old ledger.old }
{
    match recording::check_form(file) {
        Err(refused) => Answer::from(refused),
        Ok(recording) => {
            if bytes.len() < BYTE_ROOM || ledger.len() < LEDGER_ROOM {
                return Answer::refused(Refusal::ShortBuffers, 0);
            }
            let state = reading::read(recording, limits, bytes, ledger);
            answers::state_answer(recording, state)
        }
    }
}
