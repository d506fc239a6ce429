// "The byte buffer begins with those" handed over; "the ledger begins with two ticks for each byte: sender lets go of
// DATA, receiver takes it. All further places keep what they held."
ghost use Rattle.std.specs.Prelude.{◌+◌, ◌*◌, ◌^◌, ◌<◌, ◌≤◌};
ghost use Rattle.second_judge.specs.Promise.{Kept};

use crate::phase::Next;
use crate::place::Place;

// C: "Entering it after a byte hands that byte over." The finish of #101 "hands the last byte over". Gives how many are
// handed over then.
// The two slices stay two parameters: of a struct that holds both, each contract would add that it still holds the same two.
pub fn hand_over(
    next: Next,
    value: u8,
    place: Place,
    count: u32,
    bytes: &mut [u8],
    ledger: &mut [u32],
) -> u32
    requires { count ≤ 16000 }
    ensures counted { (count ≤ result) × (result ≤ count + 1) }
    ensures bytes_kept { Kept result bytes.old bytes.new }
    ensures ledger_kept { Kept (2 * result) ledger.old ledger.new }
{
    match next {
        Next::HandOver | Next::Finish => {
            put(bytes, count as usize, [value]);
            put(ledger, 2 * count as usize, [place.let_go, place.take]);
            count + 1
        }
        Next::Stay | Next::Go(_) | Next::OpenFromHere => count,
    }
}

// A byte takes 19 steps or more, so that 16,000 steps hold at most 842, and the 1,000 and 2,000 places never run out.
fn put<T: Copy, const N: usize>(lent: &mut [T], from: usize, values: [T; N])
    requires { from + N < 2 ^ 64 }
    ensures { Kept (from + N) lent.old lent.new }
{
    let end = from + N;
    if end <= lent.len() {
        lent[from..end].copy_from_slice(&values);
    }
}
