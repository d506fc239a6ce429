// Judges one recording and prints what the judge gave:
//
//     NUMBER TICK STEP COUNT NAME FILE      or, where it could not be read: - - - - unreadable FILE
//     bytes 28 6f ..                        where COUNT is above 0
//     ledger 1350 1380 2730 2760 ..         where COUNT is above 0
//     classes listen secondary ..           where COUNT is above 0, of a command transfer
//     end
//
// Its first argument says what is recorded, `data` or `command`; the second names the file, and without it that is standard input. The
// exit status is 0 whatever happens, so the last line says that all of the answer was printed: without it nothing was answered.
#![tactic(auto)]

mod handed;

use crate::handed::print_handed;
use answer::Answer;
use files::{argument, print_answer, print_failure, read_source};
use std::io;
use std::io::{ErrorKind, Input, Print};
use std::rt::{Env, Files};
use transfer::Entry;

fn main(rt: HostRuntime) {
    let _ = judge_arguments(&rt, &rt.stderr());
}

fn judge_arguments<R: Env + Files + Input + Print, E: Print>(rt: &R, errors: &E) -> io::Result<()> {
    let mut room = [0u8; 4096];
    let word: &[u8] = argument(rt, 1, &mut room)?;
    match word {
        b"data" => judge_source(rt, errors, Entry::Plain),
        b"command" => judge_source(rt, errors, Entry::Command),
        _ => Ok(()),
    }
}

// The room is longer than any recording. A longer file than the room is judged by its beginning, and what the judge says of that is what
// it says of the whole file (crates/judge/specs/LongFiles.antt).
fn judge_source<R: Env + Files + Input + Print, E: Print>(
    rt: &R,
    errors: &E,
    entry: Entry,
) -> io::Result<()> {
    let mut name = [0u8; 4096];
    let mut room = [0u8; 65536];
    let source = read_source(rt, errors, 2, &mut name, &mut room);
    match source.file {
        Some(file) => print_judged(rt, entry, file, source.name)?,
        None => print_failure(rt, b"unreadable", source.name)?,
    }
    rt.print("end\n")
}

fn print_judged<P: Print>(to: &P, entry: Entry, file: &[u8], name: &[u8]) -> io::Result<()> {
    let mut bytes = [0u8; 1000];
    let mut ledger = [0u32; 2000];
    let answer = judge_by(entry, file, &mut bytes, &mut ledger);
    print_answer(to, answer, name)?;
    let count = answer.count as usize;
    // the judge counts no more than the buffers hold
    match (bytes.get(..count), ledger.get(..2 * count)) {
        (Some(bytes), Some(ledger)) => print_handed(to, entry, bytes, ledger),
        _ => Err(ErrorKind::InvalidData.into()),
    }
}

fn judge_by(entry: Entry, file: &[u8], bytes: &mut [u8], ledger: &mut [u32]) -> Answer {
    match entry {
        Entry::Plain => judge::judge(file, bytes, ledger),
        Entry::Command => judge::judge_command(file, bytes, ledger),
    }
}
