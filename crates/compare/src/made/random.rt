// A generator of numbers, xorshift64: shifts and exclusive-ors alone. It is fixed, so that each run draws the same.
ghost use Rattle.std.specs.Prelude.{◌<◌, ◌≤◌};

use std::ops::RangeInclusive;

#[derive(Clone, Copy)]
pub(crate) struct Random {
    // Any but 0, of which nothing else would come.
    pub state: u64,
}

impl Random {
    const START: u64 = 0x9E37_79B9_7F4A_7C15;

    // Each case has a start of its own, so that it can be made again by itself.
    pub(crate) fn of_case(number: u32) -> Random {
        let start = Random {
            state: Random::START ^ u64::from(number),
        };
        start.next().next().next().next()
    }

    pub(crate) fn next(self) -> Random {
        let left = self.state ^ (self.state << 13);
        let right = left ^ (left >> 7);
        Random {
            state: right ^ (right << 17),
        }
    }

    pub(crate) fn byte(self) -> u8 {
        (self.state >> 56) as u8
    }

    // A number below `end`; 0 if there is none.
    pub(crate) fn below(self, end: u32) -> u32
        ensures within { result ≤ end }
        ensures is_below { 0 < end → result < end }
    {
        if end == 0 {
            return 0;
        }
        (self.state >> 32) as u32 % end
    }

    // A number of the range, often its first or its last.
    pub(crate) fn within(self, range: RangeInclusive<u32>) -> u32 {
        let (least, most) = range.into_inner();
        match self.state % 8 {
            0 => least,
            1 => most,
            _ => {
                let width = most.wrapping_sub(least);
                least.wrapping_add(self.below(width.wrapping_add(1)))
            }
        }
    }
}
