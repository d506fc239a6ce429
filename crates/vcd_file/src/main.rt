// Prints one recording, the file that its argument names or standard input, as a Value Change Dump on standard output. What became of it
// stands on standard error, on the last line:
//
//     end         all of the dump was printed
//     refused     after a line with the refusal, NUMBER TICK STEP COUNT NAME FILE; nothing was printed
//
// Anything else is the reason why the dump is not whole: the exit status is 0 whatever happens.
#![tactic(auto)]

mod pieces;

use crate::pieces::print_dump;
use files::read_source;
use std::io::{Input, Print};
use std::rt::{Env, Files};

fn main(rt: HostRuntime) {
    dump_source(&rt, &rt.stderr());
}

// As in judge_file, the room is longer than any recording: a longer file is refused by its beginning as it is by the whole of it
// (crates/recording/specs/LongFiles.antt).
fn dump_source<R: Env + Files + Input + Print, E: Print>(rt: &R, errors: &E) {
    let mut name = [0u8; 4096];
    let mut room = [0u8; 65536];
    let source = read_source(rt, errors, 1, &mut name, &mut room);
    if let Some(file) = source.file {
        print_dump(rt, errors, file, source.name);
    }
}
