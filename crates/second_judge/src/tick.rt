// One tick, as the rows ask for it.
ghost use Rattle.std.specs.Prelude.{◌≡◌, ◌≤◌};

use crate::byte::Byte;
use crate::lines::Lines;
use crate::phase::Phase;
use crate::place::Place;

#[derive(Clone, Copy)]
pub struct Tick {
    // The phase that it is read in, and how far into it.
    pub phase: Phase,
    pub offset: u32,
    // The lines of this tick, and of the one before.
    pub lines: Lines,
    pub before: Lines,
    // The byte under way, or the one just handed over: its bits so far, and whether it has the end mark.
    pub bits: u32,
    pub end_mark: bool,
}

impl Tick {
    // The tick `tick`, read at a place.
    pub fn read(place: Place, byte: Byte, tick: u32, lines: Lines, before: Lines) -> Tick
        requires { place.since ≤ tick }
        ensures { (result.phase ≡ place.phase) × (result.lines ≡ lines) }
    {
        Tick {
            phase: place.phase,
            offset: tick - place.since,
            lines,
            before,
            bits: byte.bits,
            end_mark: byte.end_mark,
        }
    }

    // DATA is steady where both ticks show the same.
    pub fn is_steady(self) -> bool {
        self.lines.data == self.before.data
    }
}
