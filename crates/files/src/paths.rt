// A file's name as it is printed.
ghost use Rattle.std.specs.Prelude.{map, ◌≡◌};
ghost use Rattle.files.specs.Printable.{printable};

// What stands in place of a control character.
const HIDDEN: u8 = b'?';

// The first character of ASCII that is no control character, and the one above all others that is.
const SPACE: u8 = 32;

const DELETE: u8 = 127;

// Hides the control characters of a file's name, so that no name can print a line that reads as an answer.
pub fn hide_controls(name: &mut [u8])
    ensures { name.new ≡ map printable name.old }
{
    for byte in name {
        *byte = printable(*byte);
    }
}

#[tactic(auto, unfolding(crate::specs::Printable::printable))]
fn printable(byte: u8) -> u8
    ensures { result ≡ printable byte }
{
    if byte < SPACE || byte == DELETE {
        HIDDEN
    } else {
        byte
    }
}
