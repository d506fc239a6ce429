// The dump, piece after piece.
use answer::{Answer, Refused};
use files::{fail, print_answer};
use std::io;
use std::io::Print;

// Why a dump is not whole: the crate vcd answers a refusal, or a piece was not written.
enum Stopped {
    Refused(Refused),
    Unwritten(io::Error),
}

impl From<Refused> for Stopped {
    fn from(refused: Refused) -> Stopped {
        Stopped::Refused(refused)
    }
}

impl From<io::Error> for Stopped {
    fn from(error: io::Error) -> Stopped {
        Stopped::Unwritten(error)
    }
}

pub fn print_dump<P: Print, E: Print>(to: &P, errors: &E, file: &[u8], name: &[u8]) {
    match print_pieces(to, file) {
        Ok(()) => {
            let _ = errors.print("end\n");
        }
        Err(Stopped::Refused(refused)) => {
            let _ = print_answer(errors, Answer::from(refused), name);
            let _ = errors.print("refused\n");
        }
        Err(Stopped::Unwritten(error)) => fail(errors, b"standard output", error),
    }
}

fn print_pieces<P: Print>(to: &P, file: &[u8]) -> Result<(), Stopped> {
    let mut text = [0u8; 65536];
    let mut offset: u32 = 0;
    loop {
        let count = vcd::part(file, offset, &mut text)?;
        // as the crate vcd promises (`PiecesLaw`)
        if count == 0 {
            return Ok(());
        }
        to.write_all(&text[..count as usize])?;
        offset += count;
    }
}
