// Writes the sample recording of the bytes on standard input to a place, and prints what the writer answered:
//
//     NUMBER TICK STEP COUNT NAME FILE      or, where bytes or place failed: - - - - unreadable - or - - - - unwritable FILE
//     end
//
// Its arguments are the place and FILE, what the place is called in all that is printed. At the place `-` the recording goes to standard
// output, and what else is printed to standard error. The place is opened only after the writer has answered 0: a refusal leaves it as
// it was. The last line says that all was done and printed: the exit status is 0 whatever happens.
#![tactic(auto)]

mod saving;

use crate::saving::{PLACE, is_standard_output, save};
use answer::Answer;
use files::{fail, hide_controls, named_argument, print_answer, print_failure, read_input};
use std::io;
use std::io::{Input, Print};
use std::rt::{Env, Files};

fn main(rt: HostRuntime) {
    let _ = write_to_place(&rt, &rt.stderr());
}

fn write_to_place<R: Env + Files + Input + Print, E: Print>(rt: &R, errors: &E) -> io::Result<()> {
    let mut place = [0u8; 4096];
    let place = named_argument(rt, errors, PLACE, b"the place to write", &mut place)?;
    let mut name = [0u8; 4096];
    let name = named_argument(rt, errors, 2, b"the recording's name", &mut name)?;
    hide_controls(name);
    let writing = Writing {
        rt,
        errors,
        place,
        name,
    };
    if is_standard_output(place) {
        writing.write_input(errors)
    } else {
        writing.write_input(rt)
    }
}

// Where a recording is written, and what the place is called.
#[derive(Drop)]
struct Writing<'a, R, E> {
    rt: &'a R,
    errors: &'a E,
    place: &'a [u8],
    name: &'a [u8],
}

impl<R: Env + Files + Input + Print, E: Print> Writing<'_, R, E> {
    fn write_input<A: Print>(&self, answers: &A) -> io::Result<()> {
        // More room than bytes may be given: a longer input fills it, and is refused for its length all the same.
        let mut bytes = [0u8; 4096];
        match read_input(&mut self.rt.reader(), &mut bytes) {
            Ok(bytes) => self.write_bytes(answers, bytes)?,
            Err(broken) => {
                fail(self.errors, b"standard input", broken.reason);
                print_failure(answers, b"unreadable", b"-")?;
            }
        }
        answers.print("end\n")
    }

    fn write_bytes<A: Print>(&self, answers: &A, bytes: &[u8]) -> io::Result<()> {
        let mut destination = [0u8; 65536];
        let written = writer::write(bytes, &mut destination);
        if let Ok(length) = written {
            let recording = &destination[..length as usize];
            if let Err(error) = save(self.rt, self.place, recording) {
                fail(self.errors, self.name, error);
                return print_failure(answers, b"unwritable", self.name);
            }
        }
        print_answer(answers, Answer::from(written), self.name)
    }
}
