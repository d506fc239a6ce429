// The bytes of a file or of standard input.
ghost use Rattle.std.specs.Prelude.{◌≤◌, length, ◌≡◌, MatchResult};

use std::io;
use std::io::Read;

// What was read before a read failed, and why it failed: these are not all bytes.
#[derive(Clone, Copy)]
pub struct Broken<'a> {
    pub read: &'a [u8],
    pub reason: io::Error,
}

impl From<Broken<'_>> for io::Error {
    ghost from_gives = { λ broken reason. reason ≡ broken.reason };

    fn from(broken: Broken<'_>) -> io::Error {
        broken.reason
    }
}

// Reads until the input ends or the room is full, and answers what was read. No heap is used, so the loop stands for std's `read_to_end`,
// which fills a `Vec`.
pub fn read_input<'a, R: Read>(reader: &mut R, room: &'a mut [u8]) -> Result<&'a [u8], Broken<'a>>
    ensures { MatchResult result
        (λ read. length read.now ≤ length room.old) (λ broken. length broken.read.now ≤ length room.old) }
{
    let mut length: usize = 0;
    while length < room.len() {
        match reader.read(&mut room[length..]) {
            Ok(0) => break,
            Ok(more) => length += more,
            Err(reason) => {
                return Err(Broken {
                    read: &room[..length],
                    reason,
                });
            }
        }
    }
    Ok(&room[..length])
}
