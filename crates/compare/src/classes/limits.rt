// Every limit met by all lines: each step of three recordings lasts one tick less than each limit, as long as it and one
// tick more, and the step after it shows each value of the four line bits. So the limit's own tick meets every row of
// its phase: ATN, lines that stay, SRQ that moves, and lines that lead on.
use crate::case::Case;
use crate::classes::Class;
use crate::entry::Entry;
use crate::made::draft;
use crate::made::transfers::Transfer;

// Each value of the line bits, each duration, and each step.
const LINES: u32 = 16;

pub(crate) const DURATIONS: u32 = 45;

// Of how many steps there are limits: those of both bases, and of the recording written from no bytes.
pub(crate) const STEPS: u32 = 2 * BASE_STEPS + 5;

// 1 stands for the least durations; 212 for 512 ticks after a gap of 220 and an acknowledgement of 80; 230 and 350 are
// beyond one limit and before the next.
const LIMITS: [u32; 15] = [
    1, 20, 60, 100, 101, 150, 199, 200, 212, 230, 256, 290, 350, 512, 1000,
];

#[derive(Clone, Copy)]
pub(crate) struct Limits(pub Entry);

impl Class for Limits {
    const NAME: &'static str = "limits";

    const CASES: u32 = STEPS * DURATIONS * LINES;

    fn entry(&self) -> Entry {
        self.0
    }

    fn put(&self, number: u32, file: &mut [u8]) -> Case {
        let after = put_limit(self.0, number / LINES, file);
        draft::set_lines(file, after, (number % LINES) as u8);
        Case::of_file(file)
    }
}

// Each step with each duration. Gives the step after it.
pub(crate) fn put_limit(entry: Entry, place: u32, file: &mut [u8]) -> u32 {
    let step = put_base(entry, file, place / DURATIONS);
    draft::set_duration(file, step, duration_of(place));
    step_after(file, step)
}

// A tick less than a limit, the limit, and a tick more.
pub(crate) fn duration_of(index: u32) -> u32 {
    let limit = LIMITS[(index / 3 % 15) as usize];
    limit.wrapping_add(index % 3).wrapping_sub(1)
}

// How many steps a base has, of either entry, with a wait before it and a further step after its end.
pub(crate) const BASE_STEPS: u32 = 87;

// Gives the step that is meant: of the base, of the base whose last byte is carried up to the end of its hold, or of the
// recording written from no bytes.
pub(crate) fn put_base(entry: Entry, file: &mut [u8], place: u32) -> u32 {
    let base = place / BASE_STEPS;
    if base < 2 {
        draft::add(file, 100, draft::CLK | entry.attention());
        Transfer {
            first: base * 3,
            ..Transfer::base(entry)
        }
        .put(file);
        draft::add(file, 50, 0);
        return place % BASE_STEPS;
    }
    let _ = writer::write(&[], file);
    place % BASE_STEPS
}

// After the last step comes the first.
fn step_after(file: &[u8], step: u32) -> u32 {
    let next = step.wrapping_add(1);
    if next < draft::steps(file) { next } else { 0 }
}
