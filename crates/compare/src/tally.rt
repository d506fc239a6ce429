// What is counted.
use crate::entry::Entry;

// No answer's number is as large.
const NUMBERS: usize = 64;

// The recordings of data and of commands with each number as the answer, and the differences.
#[derive(Clone, Copy)]
pub(crate) struct Tally {
    data: [u32; NUMBERS],
    commands: [u32; NUMBERS],
    pub differences: u32,
}

impl Tally {
    pub(crate) const NONE: Tally = Tally {
        data: [0; NUMBERS],
        commands: [0; NUMBERS],
        differences: 0,
    };

    // How many recordings had this number by this entry.
    pub(crate) fn of(&self, entry: Entry, number: u8) -> u32 {
        let place = usize::from(number) % NUMBERS;
        match entry {
            Entry::Plain => self.data[place],
            Entry::Command => self.commands[place],
        }
    }

    // Whether any recording had it.
    pub(crate) fn has(&self, number: u8) -> bool {
        self.of(Entry::Plain, number) != 0 || self.of(Entry::Command, number) != 0
    }

    pub(crate) fn count(&mut self, entry: Entry, number: u32) {
        let place = number as usize % NUMBERS;
        match entry {
            Entry::Plain => self.data[place] = self.data[place].wrapping_add(1),
            Entry::Command => self.commands[place] = self.commands[place].wrapping_add(1),
        }
    }

    pub(crate) fn differ(&mut self) {
        self.differences = self.differences.wrapping_add(1);
    }
}
