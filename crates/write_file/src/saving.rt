// A recording put down at its place.
use std::io;
use std::io::Print;
use std::rt::{Env, Files};

// The place of the argument that names the place.
pub const PLACE: usize = 1;

// Standard output is called `-`.
pub fn is_standard_output(place: &[u8]) -> bool {
    matches!(place, b"-")
}

// The error is why not all of it was written.
pub fn save<R: Env + Files + Print>(rt: &R, place: &[u8], contents: &[u8]) -> io::Result<()> {
    if is_standard_output(place) {
        return rt.write_all(contents);
    }
    files::save(rt, PLACE, place, contents)
}
