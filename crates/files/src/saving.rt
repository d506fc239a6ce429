// Bytes put down at a place.
use crate::opening::create;
use std::fs::OpenFile;
use std::io;
use std::io::{ErrorKind, Write};
use std::rt::{Env, Files};

// Writes them to the file that the argument of this place names, which is emptied first, or made where it is missing. The error is why
// not all of it was written.
pub fn save<R: Env + Files>(rt: &R, place: usize, name: &[u8], contents: &[u8]) -> io::Result<()> {
    let mut file = create(rt, place, name)?;
    file.write_all(contents)?;
    settle(&file)
}

// What closing a file answers is lost here, and a file system may say only then that it could not keep what was written: so it is asked
// before. What keeps nothing, as a pipe, has no answer to that.
fn settle<F: OpenFile>(file: &F) -> io::Result<()> {
    match file.sync_data() {
        Ok(()) => Ok(()),
        Err(error) => match error.kind() {
            ErrorKind::InvalidInput | ErrorKind::Unsupported => Ok(()),
            _ => Err(error),
        },
    }
}
