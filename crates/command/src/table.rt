// The table of all command bytes.
ghost use Rattle.std.specs.Prelude.{◌≡◌};
ghost use Rattle.command.specs.Classes.{class_of};
ghost use Rattle.command.specs.Table.{class_by};

use crate::class::Class;

// A letter for each byte: a row has the sixteen bytes that begin with the same hexadecimal digit, the first row 0x00 to 0x0F.
// A table, as the user asked for (docs/DECISIONS.md, 51), and one of letters: sixteen classes by name take more than a line, and the ranges
// are no longer seen.
const LETTERS: [u8; 256] = *b"\
    ................\
    ................\
    LLLLLLLLLLLLLLLL\
    LLLLLLLLLLLLLLLl\
    TTTTTTTTTTTTTTTT\
    TTTTTTTTTTTTTTTt\
    SSSSSSSSSSSSSSSS\
    ................\
    ................\
    ................\
    ................\
    ................\
    ................\
    ................\
    CCCCCCCCCCCCCCCC\
    OOOOOOOOOOOOOOOO";

// The class of a command byte.
pub fn class_of(byte: u8) -> Class
    ensures { result ≡ class_of byte }
{
    class_by(LETTERS[byte as usize])
}

// What a letter of the table stands for.
#[tactic(auto, unfolding(crate::specs::Table::class_by))]
fn class_by(letter: u8) -> Class
    ensures { result ≡ class_by letter }
{
    match letter {
        b'L' => Class::Listen,
        b'l' => Class::Unlisten,
        b'T' => Class::Talk,
        b't' => Class::Untalk,
        b'S' => Class::Secondary,
        b'C' => Class::Close,
        b'O' => Class::Open,
        _ => Class::Other,
    }
}
