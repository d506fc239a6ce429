// The text of a tray's state file: a heading, and a line for each seat. Every line's place and length are fixed.
ghost use Rattle.std.specs.Prelude.{◌<◌, get_or, ◌≡◌};
ghost use Rattle.answer.specs.Text.{ascii, digit};
ghost use Rattle.tray_file.specs.State.{state_word, seat_line, text_length, state_text};

use std::array;
use tray::{SEATS, Seat, SeatState};

// How long the heading is, a seat's line, and all of the text, each with its line ends.
pub const HEADING_LENGTH: usize = 13;

pub const LINE_LENGTH: usize = 12;

pub const TEXT_LENGTH: usize = HEADING_LENGTH + SEATS * LINE_LENGTH;

const HEADING: [u8; HEADING_LENGTH] = *b"station tray\n";

// The whole text, byte after byte.
pub fn state_text(seats: &[Seat; SEATS]) -> [u8; TEXT_LENGTH]
    ensures { result ≡ state_text seats.now }
{
    array::from_fn(|place| state_byte(seats, place))
}

fn state_byte(seats: &[Seat; SEATS], place: usize) -> u8
    requires { place < text_length }
    ensures { result ≡ get_or (state_text seats.now) place 0 }
{
    if place < HEADING_LENGTH {
        return HEADING[place];
    }
    let number = (place - HEADING_LENGTH) / LINE_LENGTH;
    let column = (place - HEADING_LENGTH) % LINE_LENGTH;
    let line = seat_line(number, seats[number]);
    line[column]
}

// The line of one seat, as `07   passed`. By hand, since each of its bytes is promised, and those that `write!` writes only where it is Ok.
pub fn seat_line(number: usize, seat: Seat) -> [u8; LINE_LENGTH]
    requires { number < 100 }
    ensures { result ≡ seat_line number seat }
{
    let mut line = *b"           \n";
    line[0] = digit(number / 10);
    line[1] = digit(number % 10);
    line[3..11].copy_from_slice(&state_word(seat.state));
    line
}

fn digit(number: usize) -> u8
    requires { number < 10 }
    ensures { result ≡ digit number }
{
    b'0' + number as u8
}

fn state_word(state: SeatState) -> [u8; 8]
    ensures { result ≡ ascii (state_word state) }
{
    match state {
        SeatState::Vacant => *b"  vacant",
        SeatState::Unjudged => *b"unjudged",
        SeatState::Passed => *b"  passed",
        SeatState::Failed => *b"  failed",
    }
}
