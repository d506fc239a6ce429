// The calls that change a tray, each answered by a line and, where it is accepted, the new state at its place.
use crate::arguments::{EXPECTED, RECORDING};
use crate::console::Console;
use crate::lines::{print_done, print_refusal};
use crate::numbers::seat_number;
use answer::{Answer, Refusal, Verdict};
use files::{print_answer, print_file};
use std::io;
use std::io::{ErrorKind, Input, Print};
use std::rt::{Env, Files};
use tray::{SEATS, Seat, SeatState};

// Values and no closures, as `Call`.
#[derive(Clone, Copy)]
pub enum Change {
    Load,
    Remove,
    Post,
}

// What such a call is about: the seat, by the digits that were given, and the state, by its file's name.
#[derive(Drop)]
pub struct Asked<'a, R, E> {
    pub console: &'a Console<'a, R, E>,
    pub seat: &'a [u8],
    pub state: &'a [u8],
}

impl<R: Env + Files + Input + Print, E: Print> Asked<'_, R, E> {
    pub fn change(&self, change: Change, seats: [Seat; SEATS]) -> io::Result<()> {
        match change {
            Change::Load => self.load(seats),
            Change::Remove => self.remove(seats),
            Change::Post => self.post(seats),
        }
    }

    fn load(&self, mut seats: [Seat; SEATS]) -> io::Result<()> {
        let loaded = tray::load(&mut seats, seat_number(self.seat));
        self.keep_accepted(loaded, &seats, || self.print_done("loaded"))
    }

    fn remove(&self, mut seats: [Seat; SEATS]) -> io::Result<()> {
        let removed = tray::remove(&mut seats, seat_number(self.seat));
        self.keep_accepted(removed, &seats, || self.print_done("removed"))
    }

    // As in judge_file, the room is longer than any recording, and a longer file is judged by its beginning as it is by the whole of it.
    fn post(&self, seats: [Seat; SEATS]) -> io::Result<()> {
        let mut room = [0u8; 65536];
        self.console
            .answer_source(RECORDING, &mut room, |file, recording| {
                self.post_recording(seats, file, recording)
            })
    }

    // The room for the expected bytes is longer than the judge's buffer: a file that fills it passes neither whole nor cut
    // (specs/LongFiles.antt).
    fn post_recording(
        &self,
        seats: [Seat; SEATS],
        file: &[u8],
        recording: &[u8],
    ) -> io::Result<()> {
        let mut room = [0u8; 4096];
        self.console
            .answer_source(EXPECTED, &mut room, |expected, _| {
                self.post_judged(seats, file, recording, expected)
            })
    }

    fn post_judged(
        &self,
        mut seats: [Seat; SEATS],
        file: &[u8],
        recording: &[u8],
        expected: &[u8],
    ) -> io::Result<()> {
        let mut bytes = [0u8; 1000];
        let mut ledger = [0u32; 2000];
        let judged = judge::judge(file, &mut bytes, &mut ledger);
        let number = seat_number(self.seat);
        let posted = tray::post(&mut seats, number, judged, &bytes, expected);
        self.keep_accepted(posted, &seats, || {
            self.print_posted(seats.get(number), judged, recording)
        })
    }

    // By what the crate tray answers. A refusal is printed, and the state stays as it is.
    fn keep_accepted<F: FnOnce() -> io::Result<()>>(
        &self,
        called: Result<(), Refusal>,
        seats: &[Seat; SEATS],
        print_done: F,
    ) -> io::Result<()>
        requires { F.IsAlwaysCallable print_done }
    {
        match called {
            Ok(()) => self.console.keep(seats, self.state, print_done),
            Err(refusal) => print_refusal(self.console.rt, refusal, self.seat, self.state),
        }
    }

    fn print_done(&self, done: &str) -> io::Result<()> {
        print_done(self.console.rt, done, self.seat, self.state)
    }

    // A post that is accepted is one to a seat of the tray, and leaves it passed or failed.
    fn print_posted(
        &self,
        seat: Option<&Seat>,
        judged: Answer,
        recording: &[u8],
    ) -> io::Result<()> {
        match seat.map(|seat| seat.state) {
            Some(SeatState::Passed) => {
                self.print_done("passed")?;
                print_answer(self.console.rt, judged, recording)
            }
            Some(SeatState::Failed) => {
                self.print_done("failed")?;
                self.print_why(judged, recording)
            }
            _ => Err(ErrorKind::InvalidData.into()),
        }
    }

    // Why a seat failed. A complete transfer of other bytes is not called complete here: no line after `failed` reads as a pass.
    fn print_why(&self, judged: Answer, recording: &[u8]) -> io::Result<()> {
        let to = self.console.rt;
        if judged.number == Verdict::Complete.number() {
            to.print("other-bytes")?;
            return print_file(to, recording);
        }
        print_answer(to, judged, recording)
    }
}
