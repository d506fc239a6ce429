// The recording that a program is asked about: the file that an argument names, or standard input.
ghost use Rattle.std.specs.Prelude.{◌≤◌, length, IfSome, IfOk, ◌≡◌};
ghost use Rattle.std.specs.Result.{result_ok};

use crate::input::read_input;
use crate::opening::open;
use crate::paths::hide_controls;
use crate::reasons::{Found, fail};
use std::env::FillError;
use std::io;
use std::io::{Input, Print};
use std::rt::{Env, Files};

// The source's name, fit to be printed, and its bytes. Where these could not be read, the reason was told on standard error.
#[derive(Clone, Copy)]
pub struct Source<'a> {
    pub name: &'a [u8],
    pub file: Option<&'a [u8]>,
}

// Puts the source's name in `name` and its bytes in `room`, as many as there is room for. The argument of this place names a file; without
// it the source is standard input.
pub fn read_source<'a, R: Env + Files + Input, E: Print>(
    rt: &R,
    errors: &E,
    place: usize,
    name: &'a mut [u8],
    room: &'a mut [u8],
) -> Source<'a>
    ensures name { length result.name.now ≤ length name.old }
    ensures file { IfSome result.file (λ file. length file.now ≤ length room.old) }
{
    match rt.arg(place, name) {
        Ok(given) => {
            let named = &mut name[..given];
            let read = read_file(rt, place, named, room);
            hide_controls(named);
            told(errors, named, read)
        }
        Err(FillError::NotPresent) => {
            let named = name_input(name);
            let read = read_input(&mut rt.reader(), room).map_err(io::Error::from);
            told(errors, named, read)
        }
        Err(FillError::TooLong) => {
            hide_controls(name);
            told(errors, name, Err(Found::TooLong.into()))
        }
    }
}

// Standard input is called `-`.
fn name_input(name: &mut [u8]) -> &[u8]
    ensures { length result.now ≤ length name.old }
{
    if name.is_empty() {
        return name;
    }
    name[0] = b'-';
    &name[..1]
}

fn read_file<'a, R: Env + Files>(
    rt: &R,
    place: usize,
    name: &[u8],
    room: &'a mut [u8],
) -> io::Result<&'a [u8]>
    ensures { IfOk result (λ read. length read.now ≤ length room.old) }
{
    let mut file = open(rt, place, name)?;
    Ok(read_input(&mut file, room)?)
}

// The source of this name and of what was read. Where that is an error, it is told.
fn told<'a, E: Print>(errors: &E, name: &'a [u8], read: io::Result<&'a [u8]>) -> Source<'a>
    ensures name { result.name.now ≡ name.now }
    ensures file { result.file ≡ result_ok read.entry }
{
    let file = match read {
        Ok(file) => Some(file),
        Err(error) => {
            fail(errors, name, error);
            None
        }
    };
    Source { name, file }
}
