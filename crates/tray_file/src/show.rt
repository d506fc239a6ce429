// A tray drawn as 8 rows of 5 seats:
//
//     +-------------+-------------+..
//     | 00          | 01 unjudged |..
//     +-------------+-------------+..
ghost use Rattle.std.specs.Prelude.{◌<◌};

use crate::state::seat_line;
use std::io;
use std::io::Print;
use tray::{SEATS, Seat, SeatState};

const COLUMNS: usize = 5;

pub fn print_grid<P: Print>(to: &P, seats: &[Seat; SEATS]) -> io::Result<()> {
    for (number, seat) in seats.iter().enumerate() {
        print_cell(to, number, *seat)?;
    }
    print_border(to)
}

// A cell, with the border above its row and the end of its row, where it is the first or the last there.
fn print_cell<P: Print>(to: &P, number: usize, seat: Seat) -> io::Result<()>
    requires { number < 100 }
{
    if number % COLUMNS == 0 {
        print_border(to)?;
    }
    print_seat(to, number, seat)?;
    if number % COLUMNS == COLUMNS - 1 {
        to.print("|\n")?;
    }
    Ok(())
}

// Of a vacant seat only the number, so that the drives stand out; else the seat's line of the state file, without its end.
fn print_seat<P: Print>(to: &P, number: usize, seat: Seat) -> io::Result<()>
    requires { number < 100 }
{
    let state = seat.state;
    match state {
        SeatState::Vacant => print!(to; "| {number:02}          "),
        SeatState::Unjudged | SeatState::Passed | SeatState::Failed => {
            to.print("| ")?;
            to.write_all(&seat_line(number, seat)[..11])?;
            to.print(" ")
        }
    }
}

fn print_border<P: Print>(to: &P) -> io::Result<()> {
    to.print("+-------------+-------------+-------------+-------------+-------------+\n")
}
