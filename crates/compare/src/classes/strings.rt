// Written strings of many lengths up to 799, with drawn contents.
use crate::case::Case;
use crate::classes::Class;
use crate::entry::Entry;
use crate::made::draft::part;
use crate::made::random::Random;

#[derive(Clone, Copy)]
pub(crate) struct Strings;

impl Class for Strings {
    const NAME: &'static str = "strings";

    const CASES: u32 = 128;

    fn entry(&self) -> Entry {
        Entry::Plain
    }

    fn put(&self, number: u32, file: &mut [u8]) -> Case {
        let mut string = [0u8; 799];
        fill_drawn(&mut string, Random::of_case(number));
        let _ = writer::write(part(&string, length_of(number)), file);
        Case::of_file(file)
    }
}

// 0 to 63, and every twelfth from 43 to 799.
fn length_of(number: u32) -> usize {
    if number < 64 {
        return number as usize;
    }
    799 - (number % 64 * 12) as usize
}

fn fill_drawn(string: &mut [u8], mut random: Random) {
    for place in string.iter_mut() {
        random = random.next();
        *place = random.byte();
    }
}
