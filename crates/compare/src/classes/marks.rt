// Marked steps: "its last byte is 1". In each recording of the limits the step after the one that lasts so long has another
// last byte: 1, with its own lines and with ATN turned round and no other line pulled, and 2. And in pairs with all times
// drawn one step is marked: each must be 40.
use crate::case::{Case, Required};
use crate::classes::{Class, limits, pairs};
use crate::entry::Entry;
use crate::made::draft;
use crate::made::random::Random;

// What the step becomes.
#[derive(Clone, Copy)]
enum Mark {
    Marked,
    MarkedAndTurned,
    Stray,
}

const MARKS: [Mark; 3] = [Mark::Marked, Mark::MarkedAndTurned, Mark::Stray];

const AT_LIMITS: u32 = limits::STEPS * limits::DURATIONS * 3;

const DRAWN: u32 = 4000;

#[derive(Clone, Copy)]
pub(crate) struct Marks(pub Entry);

impl Class for Marks {
    const NAME: &'static str = "marks";

    const CASES: u32 = AT_LIMITS + DRAWN;

    fn entry(&self) -> Entry {
        self.0
    }

    fn put(&self, number: u32, file: &mut [u8]) -> Case {
        let required = put_marked(self.0, number, file);
        Case {
            required,
            ..Case::of_file(file)
        }
    }
}

fn put_marked(entry: Entry, number: u32, file: &mut [u8]) -> Required {
    if number < AT_LIMITS {
        put_at_limit(entry, number / 3, MARKS[(number % 3) as usize], file);
        return Required::NOTHING;
    }
    pairs::drawn(entry, None, number).put(file);
    let step = Random::of_case(number).below(draft::steps(file));
    draft::set_last(file, step, 1);
    Required::verdict(40, None)
}

fn put_at_limit(entry: Entry, place: u32, mark: Mark, file: &mut [u8]) {
    let after = limits::put_limit(entry, place, file);
    match mark {
        Mark::Marked => draft::set_last(file, after, 1),
        Mark::MarkedAndTurned => {
            draft::set_last(file, after, 1);
            draft::set_lines(file, after, entry.other().attention());
        }
        Mark::Stray => draft::set_last(file, after, 2),
    }
}
