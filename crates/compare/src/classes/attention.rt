// ATN turned round from each tick on, in both bases, with holds that are no longer than they must be. Of data that is 23 at
// this tick. Of commands it is 39 everywhere before the finish, and 37 after it.
use crate::case::{Case, Required};
use crate::classes::Class;
use crate::entry::Entry;
use crate::made::manner::Manner;
use crate::made::transfers::Transfer;

// How many ticks a base has, of either entry, with such holds.
const TICKS: u32 = 5761;

#[derive(Clone, Copy)]
pub(crate) struct Attention(pub Entry);

impl Class for Attention {
    const NAME: &'static str = "attention";

    const CASES: u32 = 2 * TICKS;

    fn entry(&self) -> Entry {
        self.0
    }

    fn put(&self, number: u32, file: &mut [u8]) -> Case {
        let turn = number % TICKS;
        let base = Transfer::base(self.0);
        let made = Transfer {
            manner: Manner {
                turn: Some(turn),
                ..base.manner
            },
            first: number / TICKS * 3,
            hold: 100,
            ..base
        }
        .put(file);
        Case {
            required: required_at(self.0, turn, made.finish),
            ..Case::of_file(file)
        }
    }
}

// At the finish of commands ATN stays pulled, and nothing is required.
fn required_at(entry: Entry, turn: u32, finish: u32) -> Required {
    match entry {
        Entry::Plain => Required::verdict(23, Some(turn)),
        Entry::Command if turn < finish => Required::verdict(39, Some(turn)),
        Entry::Command if turn == finish => Required::NOTHING,
        Entry::Command => Required::verdict(37, Some(turn)),
    }
}
