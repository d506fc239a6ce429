// Pairs with all times drawn, from "The two parties' own rules" alone, of commands with those of #101. Each must be complete
// with its string at its finish tick, and no ledger tick may be later than the pair's own.
use crate::case::{Case, Required, Sending};
use crate::classes::Class;
use crate::entry::Entry;
use crate::made::manner::Manner;
use crate::made::random::Random;
use crate::made::transfers::Transfer;

#[derive(Clone, Copy)]
pub(crate) struct Pairs(pub Entry);

impl Class for Pairs {
    const NAME: &'static str = "pairs";

    const CASES: u32 = 8000;

    fn entry(&self) -> Entry {
        self.0
    }

    fn put(&self, number: u32, file: &mut [u8]) -> Case {
        let made = drawn(self.0, None, number).put(file);
        Case {
            required: Required {
                string: Some(made.string),
                ..Required::verdict(20, Some(made.finish))
            },
            ..Case::of_file(file)
        }
    }
}

// ATN is turned round from a tick on, if one is given.
pub(crate) fn drawn(entry: Entry, turn: Option<u32>, number: u32) -> Transfer {
    let base = Transfer::base(entry);
    let random = Random::of_case(number);
    Transfer {
        manner: Manner {
            random: Some(random),
            turn,
            ..base.manner
        },
        count: 1 + random.below(Sending::MOST as u32),
        ..base
    }
}
