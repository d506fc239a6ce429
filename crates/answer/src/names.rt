// One word for each number of an answer, after document 01's tables and document 02's requests.
ghost use Rattle.std.specs.Prelude.{◌<◌, length, ◌≡◌};
ghost use Rattle.answer.specs.Names.{word_of, name_room, in_room};

// The word that the programs print for this number. No number but 20 has that of a pass. By number, since C
// asks by one and an answer has one. Where the word crosses to C a zero has room after it.
#[tactic(auto, using(crate::proofs::NameLaws::with_row, crate::proofs::NameLaws::with_none))]
pub fn name_of(number: u32) -> &'static str
    ensures named { result.now ≡ word_of number }
    ensures ended { length result.now < name_room }
{
    match number {
        // The writer's answer where it wrote.
        0 => "written",
        // "Refusals"
        1 => "short-file",
        2 => "wrong-version",
        3 => "too-many-steps",
        4 => "wrong-offset",
        5 => "wrong-length",
        6 => "zero-duration",
        7 => "stray-bits",
        8 => "wrong-total",
        9 => "short-buffers",
        10 => "too-many-bytes",
        11 => "short-destination",
        13 => "no-such-seat",
        14 => "vacant-seat",
        15 => "seat-in-use",
        16 => "not-forty-seats",
        // "Verdicts"
        20 => "complete",
        21 => "empty-stream",
        22 => "cut",
        23 => "attention",
        24 => "no-receiver",
        25 => "bad-start",
        26 => "out-of-turn",
        27 => "end-mark-not-acknowledged",
        28 => "acknowledgement-short",
        29 => "acknowledgement-long",
        30 => "late-clock",
        31 => "sender-time-out",
        32 => "valid-time-short",
        33 => "data-moved",
        34 => "clock-stall",
        35 => "receiver-time-out",
        36 => "hurried",
        37 => "moved-after-the-end",
        38 => "end-mark-under-attention",
        39 => "attention-released",
        40 => "overrun",
        _ => "no-such-number",
    }
}

// A longer word than today's has room: what crosses to C stays as it is.
const ROOM: usize = 32;

// A word as it crosses to C: its characters, and then zeros, one at least.
pub fn in_room(word: &str) -> [u8; ROOM]
    requires { length word.now < name_room }
    ensures { result ≡ in_room word.now }
{
    let bytes = word.as_bytes();
    let mut characters = [0; ROOM];
    // No `copy_from_slice`: the library for C calls nothing, as include/station.h says, and C's memcpy would copy a slice.
    for (place, character) in characters.iter_mut().enumerate() {
        *character = bytes.get(place).copied().unwrap_or(0);
    }
    characters
}
