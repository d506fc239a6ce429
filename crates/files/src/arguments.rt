// A program's arguments.
ghost use Rattle.std.specs.Prelude.{◌≤◌, length, IfOk};

use crate::reasons::{Found, fail};
use std::env::FillError;
use std::io;
use std::io::Print;
use std::rt::Env;

// The argument of this place, which is put at the room's start. Of one that is too long the room has the beginning.
pub fn argument<'a, R: Env>(rt: &R, place: usize, room: &'a mut [u8]) -> io::Result<&'a mut [u8]>
    ensures { IfOk result (λ given. length given.now ≤ length room.old) }
{
    match rt.arg(place, room) {
        Ok(given) => Ok(&mut room[..given]),
        Err(FillError::NotPresent) => Err(Found::Missing.into()),
        Err(FillError::TooLong) => Err(Found::TooLong.into()),
    }
}

// The same. Where it can't be given, the reason is told on standard error, of what the caller calls it.
pub fn named_argument<'a, R: Env, E: Print>(
    rt: &R,
    errors: &E,
    place: usize,
    what: &[u8],
    room: &'a mut [u8],
) -> io::Result<&'a mut [u8]>
    ensures { IfOk result (λ given. length given.now ≤ length room.old) }
{
    argument(rt, place, room).inspect_err(|error| fail(errors, what, *error))
}
