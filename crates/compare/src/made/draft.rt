// A recording that is being put down, step after step: its own header is right for the steps so far. It is read and
// changed by words of four bytes; a word beyond its end reads as 0, and nothing is put there.

// Line bits of a step, (1,1), and all but ATN.
pub(crate) const ATN: u8 = 1;

pub(crate) const CLK: u8 = 2;

pub(crate) const DATA: u8 = 4;

pub(crate) const SRQ: u8 = 8;

pub(crate) const BOTH: u8 = 6;

pub(crate) const ALL_BUT_ATN: u8 = 14;

// Of the header's words the third and the fourth: the total and the length. The first is the version with the step count
// above it, and the second the first step's place.
const TOTAL_AT: usize = 8;

const LENGTH_AT: usize = 12;

// The upper half of a word: the step count, and a step's lines.
const UPPER: u32 = 65_536;

pub(crate) fn word_at(file: &[u8], at: usize) -> u32 {
    let word = file.get(at..).and_then(|rest| rest.first_chunk::<4>());
    word.map_or(0, |bytes| u32::from_le_bytes(*bytes))
}

// What the header says of the steps, the ticks and the bytes.
pub(crate) fn steps(file: &[u8]) -> u32 {
    word_at(file, 0) / UPPER
}

pub(crate) fn total(file: &[u8]) -> u32 {
    word_at(file, TOTAL_AT)
}

pub(crate) fn length(file: &[u8]) -> usize {
    word_at(file, LENGTH_AT) as usize
}

pub(crate) fn put_word(file: &mut [u8], at: usize, word: u32) {
    if let Some(rest) = file.get_mut(at..)
        && let Some(bytes) = rest.first_chunk_mut::<4>()
    {
        *bytes = word.to_le_bytes();
    }
}

fn put_byte(file: &mut [u8], at: usize, byte: u8) {
    if let Some(place) = file.get_mut(at) {
        *place = byte;
    }
}

fn raise(file: &mut [u8], at: usize, by: u32) {
    put_word(file, at, word_at(file, at).wrapping_add(by));
}

// Version 1 with no steps.
pub(crate) fn begin(file: &mut [u8]) {
    put_word(file, 0, 1);
    put_word(file, 4, 16);
    put_word(file, TOTAL_AT, 0);
    put_word(file, LENGTH_AT, 16);
}

// Puts one more step down; none for no ticks, and none where there is no room.
pub(crate) fn add(file: &mut [u8], duration: u32, lines: u8) {
    let length = length(file);
    if duration == 0 || file.len() <= length {
        return;
    }
    put_word(file, length, duration % UPPER + u32::from(lines) * UPPER);
    raise(file, 0, UPPER);
    raise(file, TOTAL_AT, duration);
    raise(file, LENGTH_AT, 4);
}

// Changes a step's duration, and the total with it.
pub(crate) fn set_duration(file: &mut [u8], step: u32, duration: u32) {
    let place = 16 + 4 * (step as usize);
    let before = word_at(file, place) % UPPER;
    let more = duration.wrapping_sub(before);
    raise(file, place, more);
    raise(file, TOTAL_AT, more);
}

pub(crate) fn set_lines(file: &mut [u8], step: u32, lines: u8) {
    put_byte(file, 18 + 4 * (step as usize), lines);
}

// A step's last byte is 0 and, in a marked step, 1.
pub(crate) fn set_last(file: &mut [u8], step: u32, last: u8) {
    put_byte(file, 19 + 4 * (step as usize), last);
}

// The first bytes of a file.
pub(crate) fn part(file: &[u8], length: usize) -> &[u8] {
    file.get(..length).unwrap_or(file)
}

// Room for a recording up to this step and no more.
pub(crate) fn room_up_to(file: &mut [u8], step: u32) -> &mut [u8] {
    let end = file.len().min(20 + 4 * (step as usize));
    &mut file[..end]
}
