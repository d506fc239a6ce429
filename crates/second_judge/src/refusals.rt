// "Refusals, tested in this order": the header's and the lent memory's rows of the table.
ghost use Rattle.std.specs.Prelude.{◌≡◌, ◌+◌, ◌*◌, ◌≤◌, ◌<◌, IfOk, OnOk};
ghost use Rattle.second_judge.specs.Recording.{Passed};

use crate::layout::Header;
use crate::numbers::Refusal;
use crate::{layout, testing};

// "byte buffer under 1,000 places, or ledger under 2,000".
const BYTE_PLACES: usize = 1000;

const LEDGER_PLACES: usize = 2000;

// "Its step is the offending one for 6 and 7 and otherwise 0".
#[derive(Clone, Copy)]
pub struct Refused {
    pub refusal: Refusal,
    pub step: u32,
}

impl From<Refusal> for Refused {
    ghost from_gives = { λ refusal refused. (refused.refusal ≡ refusal) × (refused.step ≡ 0) };

    fn from(refusal: Refusal) -> Refused {
        Refused { refusal, step: 0 }
    }
}

// The table, row 1 first; how many steps there are to read if none is due.
pub fn test(file: &[u8], byte_places: usize, ledger_places: usize) -> Result<u32, Refused>
    ensures { IfOk result (Passed file.now) }
{
    if file.len() < layout::HEADER_BYTES {
        return Err(Refused::from(Refusal::FewerThan16Bytes));
    }
    let header = layout::header_of(file);
    test_header(&header, file.len())?;
    testing::test_steps(file, &header)?;
    test_room(byte_places, ledger_places)?;
    Ok(header.steps)
}

// Row 9.
fn test_room(byte_places: usize, ledger_places: usize) -> Result<(), Refusal> {
    if byte_places < BYTE_PLACES || ledger_places < LEDGER_PLACES {
        return Err(Refusal::TooFewPlaces);
    }
    Ok(())
}

// Rows 2 to 5.
fn test_header(header: &Header, true_length: usize) -> Result<(), Refusal>
    requires { header.now.steps < 65536 }
    ensures { OnOk result ((header.now.steps ≤ 16000) × (16 + 4 * header.now.steps ≤ true_length)) }
{
    if header.version != layout::VERSION {
        return Err(Refusal::Version);
    }
    if layout::MOST_STEPS < header.steps {
        return Err(Refusal::TooManySteps);
    }
    if header.offset != layout::OFFSET {
        return Err(Refusal::Offset);
    }
    let length = layout::length_for(header.steps);
    if header.file_length != length || true_length != length as usize {
        return Err(Refusal::Length);
    }
    Ok(())
}
