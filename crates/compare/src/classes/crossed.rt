// Pairs with all times drawn, handed to the entry that they are not made for: as they are, and with ATN turned round in
// every tick. None passes.
use crate::case::{Case, Required};
use crate::classes::{Class, pairs};
use crate::entry::Entry;

// Of the entry that they are made for.
#[derive(Clone, Copy)]
pub(crate) struct Crossed(pub Entry);

impl Class for Crossed {
    const NAME: &'static str = "crossed";

    const CASES: u32 = 4000;

    fn entry(&self) -> Entry {
        self.0.other()
    }

    fn put(&self, number: u32, file: &mut [u8]) -> Case {
        let is_turned = number % 2 == 1;
        let made = pairs::drawn(self.0, is_turned.then_some(0), number / 2).put(file);
        Case {
            required: required_at(self.0, is_turned, made.finish),
            ..Case::of_file(file)
        }
    }
}

// As they are, ATN is wrong from tick 0 on. Turned round, data has its end mark under attention, and commands are data up to
// the finish, where ATN is pulled.
fn required_at(entry: Entry, is_turned: bool, finish: u32) -> Required {
    match (entry, is_turned) {
        (Entry::Plain, true) => Required::verdict(38, None),
        (Entry::Plain, false) => Required::verdict(39, Some(0)),
        (Entry::Command, true) => Required::verdict(23, Some(finish)),
        (Entry::Command, false) => Required::verdict(23, Some(0)),
    }
}
