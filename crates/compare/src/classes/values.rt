// Every value of a byte, alone, as the first of four bytes, and as the first and the last of seven, written by the writer.
use crate::case::Case;
use crate::classes::Class;
use crate::entry::Entry;
use crate::made::draft::part;

#[derive(Clone, Copy)]
pub(crate) struct Values;

impl Class for Values {
    const NAME: &'static str = "values";

    const CASES: u32 = 768;

    fn entry(&self) -> Entry {
        Entry::Plain
    }

    fn put(&self, number: u32, file: &mut [u8]) -> Case {
        let value = (number / 3 % 256) as u8;
        let place = (number % 3) as usize;
        let string = [value, 0xA5, 0x00, 0xFF, 0x00, 0x5A, value];
        let _ = writer::write(part(&string, 1 + 3 * place), file);
        Case::of_file(file)
    }
}
