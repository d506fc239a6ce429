// The steps of a whole string, one byte after another.
ghost use Rattle.std.specs.Prelude.{◌≤◌, length, ◌≡◌};
ghost use Rattle.writer.specs.{WrittenSteps.written_steps, Written.most_bytes, Written.written_step_count, Put.Room, Put.Put};

use crate::steps::StepWriter;

// Document 01: 20n+5 steps.
const BYTE_STEPS: usize = 20;

const OTHER_STEPS: usize = 5;

pub(crate) fn step_count(bytes: usize) -> usize
    requires { bytes ≤ most_bytes }
    ensures { result ≡ written_step_count bytes }
{
    BYTE_STEPS * bytes + OTHER_STEPS
}

impl StepWriter<'_> {
    // The steps after the header.
    pub(crate) fn put_bytes(&mut self, bytes: &[u8])
        requires { Room self.old (written_step_count (length bytes.now)) }
        ensures { Put (written_steps self.old.card bytes.now) self.old self.new }
    {
        match bytes.split_last() {
            None => self.put_no_bytes(),
            Some((last, others)) => {
                for byte in others {
                    self.put_byte(*byte);
                }
                self.put_last_byte(*last);
            }
        }
    }
}
