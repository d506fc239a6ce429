// A file that an argument names, opened.
ghost use Rattle.std.specs.Prelude.{◌≤◌, length, IfOk};

use crate::reasons::Found;
use std::fs::OpenOptions;
use std::rt::{Env, Files};
use std::{io, str};

// The variable in which a caller tells its folder of links.
const LINKS: &str = "STATION_LINKS";

pub fn open<R: Env + Files>(rt: &R, place: usize, name: &[u8]) -> io::Result<R::File> {
    open_by(OpenOptions::new().read(true), rt, place, name)
}

pub fn create<R: Env + Files>(rt: &R, place: usize, name: &[u8]) -> io::Result<R::File> {
    let mut how = OpenOptions::new();
    how.write(true).create(true).truncate(true);
    open_by(&how, rt, place, name)
}

// Only a name in UTF-8 opens a file here. For a file of any other name the caller makes a link in its folder, called by the argument's
// place.
fn open_by<R: Env + Files>(
    how: &OpenOptions,
    rt: &R,
    place: usize,
    name: &[u8],
) -> io::Result<R::File> {
    if let Ok(text) = str::from_utf8(name) {
        return how.open(rt, text);
    }
    let mut link = [0u8; 4096];
    match str::from_utf8(link_to(rt, place, &mut link)?) {
        Ok(text) => how.open(rt, text),
        Err(_) => Err(Found::NoText.into()),
    }
}

// The link's name, which is put at the room's start. A folder of no name is none.
fn link_to<'a, R: Env>(rt: &R, place: usize, room: &'a mut [u8]) -> io::Result<&'a [u8]>
    ensures { IfOk result (λ link. length link.now ≤ length room.old) }
{
    match rt.var(LINKS, room) {
        Ok(folder) if 0 < folder && 2 <= room.len() - folder && place <= 9 => {
            room[folder] = b'/';
            room[folder + 1] = b'0' + place as u8;
            Ok(&room[..folder + 2])
        }
        _ => Err(Found::NoText.into()),
    }
}
