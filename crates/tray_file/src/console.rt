// The calls on a tray: `new`, `seal` and `show` are answered here, and those that change a tray in changes.rt. Here is also how both read
// their files and write the new state. A call that is an error was not answered, or not all of the answer was printed.
use crate::arguments::{PLACE, SEAT, STATE};
use crate::changes::{Asked, Change};
use crate::lines::{print_counts, print_failure, print_not_a_tray};
use crate::numbers::is_number;
use crate::reading::read_state;
use crate::show::print_grid;
use crate::state::state_text;
use files::{argument, fail, hide_controls, named_argument, print_file, read_source};
use std::io;
use std::io::{ErrorKind, Input, Print};
use std::rt::{Env, Files};
use tray::{SEATS, Seat, SeatState};

// Values and no closures, since the state is read before it matters which call it is.
#[derive(Clone, Copy)]
pub enum Call {
    Change(Change),
    Seal,
    Show,
}

// What every call works with.
#[derive(Drop)]
pub struct Console<'a, R, E> {
    pub rt: &'a R,
    pub errors: &'a E,
}

impl<R: Env + Files + Input + Print, E: Print> Console<'_, R, E> {
    // A tray of vacant seats. The state's name is only printed: whether such a file is there already is for the caller to see.
    pub fn new_tray(&self) -> io::Result<()> {
        let mut room = [0u8; 4096];
        let state = named_argument(self.rt, self.errors, STATE, b"the state's name", &mut room)?;
        hide_controls(state);
        let vacant = Seat {
            state: SeatState::Vacant,
        };
        self.keep(&[vacant; SEATS], state, || {
            self.rt.print("0 vacant")?;
            print_file(self.rt, state)
        })
    }

    // The room is longer than a state file, and what is said of a longer file than the room is what is said of its beginning
    // (specs/LongFiles.antt).
    pub fn answer_state(&self, call: Call) -> io::Result<()> {
        let mut room = [0u8; 4096];
        self.answer_source(STATE, &mut room, |file, state| {
            self.answer_file(call, file, state)
        })
    }

    // Answers by the bytes and the name of the file that the argument of this place names, or that it could not be read.
    pub fn answer_source<F: FnOnce(&[u8], &[u8]) -> io::Result<()>>(
        &self,
        place: usize,
        room: &mut [u8],
        answer: F,
    ) -> io::Result<()>
        requires { F.IsAlwaysCallable answer }
    {
        let mut name = [0u8; 4096];
        let source = read_source(self.rt, self.errors, place, &mut name, room);
        match source.file {
            Some(file) => answer(file, source.name),
            None => print_failure(self.rt, "unreadable", source.name),
        }
    }

    fn answer_file(&self, call: Call, file: &[u8], state: &[u8]) -> io::Result<()> {
        match read_state(file) {
            Ok(seats) => self.answer_tray(call, seats, state),
            Err(line) => print_not_a_tray(self.rt, line, state),
        }
    }

    fn answer_tray(&self, call: Call, seats: [Seat; SEATS], state: &[u8]) -> io::Result<()> {
        match call {
            Call::Change(change) => self.change_tray(change, seats, state),
            Call::Seal => self.seal(&seats),
            Call::Show => {
                print_grid(self.rt, &seats)?;
                self.rt.print("seats: ")?;
                print_counts(self.rt, tray::count(&seats))
            }
        }
    }

    // Only a tray that may be sealed is called so.
    fn seal(&self, seats: &[Seat; SEATS]) -> io::Result<()> {
        if let Ok(true) = tray::seal(seats) {
            return self.rt.print("sealed\n");
        }
        self.rt.print("open: ")?;
        print_counts(self.rt, tray::count(seats))
    }

    // The room is for a number of more digits than anybody gives.
    fn change_tray(&self, change: Change, seats: [Seat; SEATS], state: &[u8]) -> io::Result<()> {
        let mut room = [0u8; 4096];
        let seat = named_argument(self.rt, self.errors, SEAT, b"the seat", &mut room)?;
        // Not answered. Which error it is nobody asks.
        if !is_number(seat) {
            return Err(ErrorKind::InvalidInput.into());
        }
        let asked = Asked {
            console: self,
            seat,
            state,
        };
        asked.change(change, seats)
    }

    // Writes the state to its place, which is opened only here, and then prints what is done. Where not all was written, the reason is
    // told.
    pub fn keep<F: FnOnce() -> io::Result<()>>(
        &self,
        seats: &[Seat; SEATS],
        state: &[u8],
        print_done: F,
    ) -> io::Result<()>
        requires { F.IsAlwaysCallable print_done }
    {
        match self.write_state(seats) {
            Ok(()) => print_done(),
            Err(error) => {
                fail(self.errors, state, error);
                print_failure(self.rt, "unwritable", state)
            }
        }
    }

    fn write_state(&self, seats: &[Seat; SEATS]) -> io::Result<()> {
        let mut room = [0u8; 4096];
        let place = argument(self.rt, PLACE, &mut room)?;
        files::save(self.rt, PLACE, place, &state_text(seats))
    }
}
