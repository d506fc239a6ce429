// The entry: a recording of given bytes, put down in a lent destination.
ghost use Rattle.std.specs.Prelude.{◌≤◌, length, ◌≡◌};
ghost use Rattle.answer.specs.Answers.{answered, ◌over◌};
ghost use Rattle.transfer.specs.Limits.{standard_limits};
ghost use Rattle.writer.specs.{Card.standard_card, Promise.WritePromise};
ghost use Rattle.writer.specs.Written.{most_bytes, written_length, recording_of, leaves};

use crate::card::Card;
use crate::steps::StepWriter;
use crate::string;
use answer::{Refusal, Refused};
use recording::{Header, Step};

// More bytes than this are refusal 10.
const MOST_BYTES: usize = 799;

// Writes the sample recording of the bytes. Promised, first: the answer and the destination, whole, are what `written` gives. Second,
// demand 2: where no refusal is due, what was put down is read back by the judge, with room enough, as these very bytes.
pub fn write(bytes: &[u8], destination: &mut [u8]) -> Result<u32, Refused>
    ensures { WritePromise standard_limits standard_card bytes.now destination.old
        (leaves (answered result) destination.new) }
{
    if bytes.len() > MOST_BYTES {
        return Err(Refusal::TooManyBytes.into());
    }
    let length = written_length(bytes.len());
    if destination.len() < length {
        return Err(Refusal::ShortDestination.into());
    }
    put_recording(bytes, destination, Card::standard());
    Ok(length as u32)
}

// How long the recording of so many bytes is. That they are few is a clause of four functions, and no fact of a type: three of them take
// the count alone.
fn written_length(bytes: usize) -> usize
    requires { bytes ≤ most_bytes }
    ensures { result ≡ written_length bytes }
{
    Header::SIZE + Step::SIZE * string::step_count(bytes)
}

// The header, and the steps after it.
fn put_recording(bytes: &[u8], destination: &mut [u8], card: Card)
    requires { (length bytes.now ≤ most_bytes) × (written_length (length bytes.now) ≤ length destination.old) }
    ensures { destination.new ≡ recording_of card bytes.now over destination.old }
{
    let steps = string::step_count(bytes.len());
    let total = card.total_ticks(bytes.len() as u32);
    let header = Header::of_steps(steps as u16, total);
    header.write(destination);
    StepWriter::new(destination, card).put_bytes(bytes);
}
