// Answers one call on a tray of forty seats that is kept in a file:
//
//     new STATE PLACE                            0 vacant STATE
//     load STATE PLACE SEAT                      0 loaded SEAT STATE
//     remove STATE PLACE SEAT                    0 removed SEAT STATE
//     post STATE PLACE SEAT RECORDING EXPECTED   0 passed SEAT STATE, and the judge's line, NUMBER TICK STEP COUNT NAME RECORDING
//                                                0 failed SEAT STATE, and the judge's line, or: other-bytes RECORDING
//     seal STATE                                 sealed, or: open: 37 passed, 1 failed, 1 unjudged, 1 vacant
//     show STATE                                 the seats, drawn, and: seats: 37 passed, 1 failed, 1 unjudged, 1 vacant
//
// or one of the lines
//
//     NUMBER NAME SEAT STATE                     a refusal
//     - not-a-tray LINE STATE                    this line of STATE is the first that is wrong
//     - unreadable FILE, - unwritable STATE      the reason stands on standard error
//
// and then `end`. STATE is read and never written. The new state is written to PLACE, which is opened only where the call is accepted: who
// calls the program moves it to STATE. The exit status is 0 whatever happens, so the last line says that all was done and printed: without
// it nothing was answered. Wrong arguments are not answered.
#![tactic(auto)]

mod arguments;
mod changes;
mod console;
mod lines;
mod numbers;
mod reading;
mod show;
mod state;

use crate::changes::Change;
use crate::console::{Call, Console};
use files::argument;
use std::env::FillError;
use std::io;
use std::io::{ErrorKind, Input, Print};
use std::rt::{Env, Files};

fn main(rt: HostRuntime) {
    let console = Console {
        rt: &rt,
        errors: &rt.stderr(),
    };
    let _ = answer_arguments(&console);
}

fn answer_arguments<R: Env + Files + Input + Print, E: Print>(
    console: &Console<'_, R, E>,
) -> io::Result<()> {
    let mut room = [0u8; 4096];
    let word: &[u8] = argument(console.rt, 1, &mut room)?;
    answer_call(console, word, count_arguments(console.rt))?;
    console.rt.print("end\n")
}

// More arguments than any call has.
const MANY: usize = 8;

// The program's name is one. No more than eight are counted.
fn count_arguments<R: Env>(rt: &R) -> usize {
    for place in 0..MANY {
        if !is_given(rt, place) {
            return place;
        }
    }
    MANY
}

fn is_given<R: Env>(rt: &R, place: usize) -> bool {
    !matches!(rt.arg(place, &mut []), Err(FillError::NotPresent))
}

fn answer_call<R: Env + Files + Input + Print, E: Print>(
    console: &Console<'_, R, E>,
    word: &[u8],
    arguments: usize,
) -> io::Result<()> {
    match (word, arguments) {
        (b"new", 4) => console.new_tray(),
        (b"load", 5) => console.answer_state(Call::Change(Change::Load)),
        (b"remove", 5) => console.answer_state(Call::Change(Change::Remove)),
        (b"post", 7) => console.answer_state(Call::Change(Change::Post)),
        (b"seal", 3) => console.answer_state(Call::Seal),
        (b"show", 3) => console.answer_state(Call::Show),
        // Not answered. Which error it is nobody asks.
        _ => Err(ErrorKind::InvalidInput.into()),
    }
}
