// The byte under way, or the one just handed over.
ghost use Rattle.std.specs.Prelude.{◌+◌, ◌≤◌};

use crate::lines::Lines;
use crate::phase::{Next, Phase};

// A further bit comes in at the top: after eight of them the first is the least significant.
const BIT_8: u8 = 128;

#[derive(Clone, Copy, Default)]
pub struct Byte {
    // The bits so far, and how many they are.
    pub value: u8,
    pub bits: u32,
    pub end_mark: bool,
}

impl Byte {
    // The byte after a tick with these lines: D begins a byte, F marks it, valid adds their DATA.
    pub fn after(self, next: Next, lines: Lines) -> Byte
        requires { self.bits ≤ 16000 }
        ensures { result.bits ≤ self.bits + 1 }
    {
        match next {
            Next::Go(Phase::ReadyForData) => Byte::default(),
            Next::Go(Phase::Acknowledgement) => Byte {
                end_mark: true,
                ..self
            },
            Next::Go(Phase::Valid) => Byte {
                value: self.value / 2 + if lines.data { BIT_8 } else { 0 },
                bits: self.bits + 1,
                ..self
            },
            _ => self,
        }
    }
}
