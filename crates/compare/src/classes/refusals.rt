// Each refusal at its edge and beside the ones before and after it, with buffers shorter and longer than asked: S1 with
// four of its bytes changed.
use crate::case::Case;
use crate::classes::Class;
use crate::entry::Entry;
use crate::made::draft;

const CHANGES: u32 = 32;

const ROOMS: u32 = 5;

// The place, the word that is put there, and the file's true length: a tuple, since with named fields each row of the table
// would take five lines.
type Change = (usize, u32, usize);

const ALL: [Change; 32] = [
    // S1 as it is.
    (4, 16, 116),
    // 1: no bytes; 15, of another version; and 16.
    (4, 16, 0),
    (0, 0x0019_0002, 15),
    (4, 16, 16),
    // 2: version 2, also with too many steps, and 257.
    (0, 0x0019_0002, 116),
    (0, 0x3E81_0002, 116),
    (0, 0x0019_0101, 116),
    // 3: 16,000 steps; 16,001, also with another offset.
    (0, 0x3E80_0001, 116),
    (0, 0x3E81_0001, 116),
    (2, 0x0011_3E81, 116),
    // 4: offset 17, also with another count, and with a bit in its last byte.
    (4, 17, 116),
    (2, 0x0011_001A, 116),
    (4, 0x0100_0010, 116),
    // 5: the length by the header, also with no ticks in the first step; by the count; and the true one.
    (12, 115, 116),
    (12, 117, 116),
    (14, 0x0000_0001, 116),
    (0, 0x0018_0001, 116),
    (0, 0x001A_0001, 116),
    (4, 16, 115),
    (4, 16, 117),
    // 6: no ticks in the first step; in the last, with stray bits in it too; in step 4, after a last byte of 2 in step 3.
    (16, 0x0006_0000, 116),
    (112, 0x0210_0000, 116),
    (31, 0x0000_0002, 116),
    // 7: each further line bit, one with another total too, one in a marked step; and a last byte of 2 and of 128.
    (16, 0x0016_00C8, 116),
    (16, 0x0026_00C9, 116),
    (112, 0x0040_0064, 116),
    (112, 0x0180_0064, 116),
    (16, 0x0206_00C8, 116),
    (112, 0x8000_0064, 116),
    // 8: one tick less, one more, and 65,536 more.
    (8, 2009, 116),
    (8, 2011, 116),
    (8, 0x0001_07DA, 116),
];

// 9: how many places of both buffers are lent.
const LENT: [(usize, usize); 5] = [
    (1200, 2400),
    (1000, 2000),
    (999, 2400),
    (1200, 1999),
    (0, 0),
];

#[derive(Clone, Copy)]
pub(crate) struct Refusals(pub Entry);

impl Class for Refusals {
    const NAME: &'static str = "refusals";

    const CASES: u32 = CHANGES * ROOMS;

    fn entry(&self) -> Entry {
        self.0
    }

    fn put(&self, number: u32, file: &mut [u8]) -> Case {
        let (place, word, length) = change_at(number / ROOMS);
        let (bytes, ledger) = LENT[(number % ROOMS) as usize];
        let _ = writer::write(&[0x41], file);
        draft::put_word(file, place, word);
        Case {
            length,
            bytes,
            ledger,
            ..Case::of_file(file)
        }
    }
}

// Apart, since the table is dear to prove beside anything else.
fn change_at(number: u32) -> Change {
    ALL[(number % CHANGES) as usize]
}
