// Why something failed, as the system words it.
ghost use Rattle.std.specs.Prelude.{◌≤◌, length};

use std::io;
use std::io::{Cursor, Print, Write};

// What is found to be wrong here and not by the system, each with the system's number for it.
#[derive(Clone, Copy)]
pub(crate) enum Found {
    // An argument is not there.
    Missing = 22,
    // An argument is longer than its room.
    TooLong = 36,
    // A file's name is no text in UTF-8.
    NoText = 84,
}

impl From<Found> for io::Error {
    fn from(found: Found) -> io::Error {
        io::Error::from_raw_os_error(found as i32)
    }
}

// Longer than any reason.
const ROOM: usize = 256;

// Tells on standard error, in a line, what failed and why. Where that cannot be written nobody is left to be told: so no error is given,
// and each part is tried whatever became of those before it.
pub fn fail<E: Print>(errors: &E, what: &[u8], error: io::Error) {
    let mut reason = Cursor::new([0u8; ROOM]);
    let _ = write!(reason, "{error}");
    let text = reason.into_inner();
    let _ = errors.write_all(what);
    let _ = errors.write_all(b": ");
    let _ = errors.write_all(&text[..reason_length(&text)]);
    let _ = errors.write_all(b"\n");
}

// How long the reason is without what is printed after it of the system's errors, ` (os error 2)`: no reason has a bracket in it, nor a
// zero, which is what the rest of its room has.
fn reason_length(text: &[u8]) -> usize
    ensures { result ≤ length text.now }
{
    for (place, byte) in text.iter().enumerate() {
        if *byte == b'(' && 0 < place {
            return place - 1;
        }
        if *byte == 0 {
            return place;
        }
    }
    text.len()
}
