// The calls that change a lent tray in place. Where one is refused, nothing has changed.
// A tray is lent as a slice, and not as an array of SEATS: a list of another length is answered, by refusal 16.
ghost use Rattle.std.specs.Prelude.{◌≡◌, OnErr};
ghost use Rattle.tray.specs.{Types.Load, Types.Remove, Types.Post, Passing.passing};
ghost use Rattle.tray.specs.Tray.{answer_of, leaves, called, outside};

use crate::passing::passes;
use crate::seat::{Call, Seat};
use answer::{Answer, Refusal};

// How many seats a tray has.
pub const SEATS: usize = 40;

// Makes a vacant seat unjudged.
pub fn load(tray: &mut [Seat], seat: usize) -> Result<(), Refusal>
    ensures left { leaves (answer_of result) tray.new ≡ called tray.old seat Load }
    ensures refused { OnErr result (tray.new ≡ tray.old) }
{
    change(tray, seat, Call::Load)
}

// Makes a seat vacant.
pub fn remove(tray: &mut [Seat], seat: usize) -> Result<(), Refusal>
    ensures left { leaves (answer_of result) tray.new ≡ called tray.old seat Remove }
    ensures refused { OnErr result (tray.new ≡ tray.old) }
{
    change(tray, seat, Call::Remove)
}

// Makes a seat passed or failed: by the judge's answer, its byte buffer and the bytes that were expected.
pub fn post(
    tray: &mut [Seat],
    seat: usize,
    answer: Answer,
    buffer: &[u8],
    expected: &[u8],
) -> Result<(), Refusal>
    ensures left { leaves (answer_of result) tray.new
        ≡ called tray.old seat (Post (passing answer buffer.now expected.now)) }
    ensures refused { OnErr result (tray.new ≡ tray.old) }
{
    let passes = passes(answer, buffer, expected);
    change(tray, seat, Call::Post(passes))
}

// Not for callers outside the crate: it takes their word for it that a post passes.
#[tactic(auto, unfolding(crate::specs::Tray::outside, crate::specs::Tray::called))]
pub fn change(tray: &mut [Seat], seat: usize, call: Call) -> Result<(), Refusal>
    ensures left { leaves (answer_of result) tray.new ≡ called tray.old seat call }
    ensures refused { OnErr result (tray.new ≡ tray.old) }
{
    outside(tray.len(), seat)?;
    tray[seat] = tray[seat].called(call)?;
    Ok(())
}

// Why a call is refused whatever the seat holds.
#[tactic(auto, unfolding(crate::specs::Tray::outside))]
fn outside(seats: usize, seat: usize) -> Result<(), Refusal>
    ensures { result ≡ outside seats seat }
{
    if seats != SEATS {
        return Err(Refusal::NotFortySeats);
    }
    if SEATS <= seat {
        return Err(Refusal::NoSuchSeat);
    }
    Ok(())
}
