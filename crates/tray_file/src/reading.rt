// A file read as a tray's state file.
ghost use Rattle.std.specs.Prelude.{◌<◌, get_or, ◌≡◌};
ghost use Rattle.tray_file.specs.{Reading.ReadAs, Steps.telling_place, Steps.state_told_by, Steps.seat_told_by, Steps.SeatsTold};
ghost use Rattle.tray_file.specs.{Steps.SameUntil, Steps.line_of};

use crate::state::{HEADING_LENGTH, LINE_LENGTH, TEXT_LENGTH, state_text};
use std::array;
use tray::{SEATS, Seat, SeatState};

// The place in a seat's line of the one byte by which the four words differ.
const TELLING_COLUMN: usize = 5;

// The seats whose state file this is, or the first line that is wrong. The bytes name seats by one byte of each line, and that is the first
// line at which the bytes are not the text of these seats: no other seats' text has that line.
pub fn read_state(file: &[u8]) -> Result<[Seat; SEATS], usize>
    ensures { ReadAs file.now result }
{
    let seats = seats_in(file);
    let text = state_text(&seats);
    let place = same_until(file, &text);
    if place == TEXT_LENGTH && file.len() == TEXT_LENGTH {
        Ok(seats)
    } else {
        Err(line_of(place))
    }
}

fn seats_in(file: &[u8]) -> [Seat; SEATS]
    ensures { SeatsTold file.now result }
{
    array::from_fn(|number| seat_in(file, number))
}

// A file that ends early names no seat: what stands for it then does not matter.
fn seat_in(file: &[u8], number: usize) -> Seat
    requires { number < 40 }
    ensures { result ≡ seat_told_by (get_or file.now (telling_place number) 0) }
{
    let place = HEADING_LENGTH + number * LINE_LENGTH + TELLING_COLUMN;
    let byte = file.get(place).copied().unwrap_or(0);
    Seat {
        state: state_told_by(byte),
    }
}

#[tactic(auto, unfolding(crate::specs::Steps::state_told_by))]
fn state_told_by(byte: u8) -> SeatState
    ensures { result ≡ state_told_by byte }
{
    match byte {
        b'j' => SeatState::Unjudged,
        b'p' => SeatState::Passed,
        b'f' => SeatState::Failed,
        _ => SeatState::Vacant,
    }
}

// The first place at which the two differ or the one or the other ends.
fn same_until(file: &[u8], text: &[u8; TEXT_LENGTH]) -> usize
    ensures { SameUntil file.now text.now result }
{
    text.iter()
        .zip(file)
        .position(|(byte, other)| byte != other)
        .unwrap_or(file.len().min(TEXT_LENGTH))
}

// The line that a place is in. The lines are counted from 1.
#[tactic(auto, unfolding(crate::specs::Steps::line_of))]
fn line_of(place: usize) -> usize
    ensures { result ≡ line_of place }
{
    if place < HEADING_LENGTH {
        1
    } else {
        (place - HEADING_LENGTH) / LINE_LENGTH + 2
    }
}
