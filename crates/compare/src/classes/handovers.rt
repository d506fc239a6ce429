// Carried and open handovers at each offset, and holds of each length, in each byte of the base.
ghost use Rattle.std.specs.Prelude.{◌<◌};

use crate::case::Case;
use crate::classes::Class;
use crate::entry::Entry;
use crate::made::transfers::{Sent, Transfer};

const KINDS: u32 = 10;

const OFFSETS: u32 = 110;

const BYTES: u32 = 4;

fn sent(value: u8, let_go: u32, take: u32, hold: u32) -> Sent {
    Sent {
        value,
        let_go,
        take,
        hold,
    }
}

// A match and no array, since each row has the offset where it wants it.
fn sent_at(kind: u32, offset: u32) -> Sent
    requires { offset < 110 }
{
    match kind {
        // Bit 8 zero: the take at each offset, from 0 and from 900 on.
        0 => sent(0x41, 0, offset, 200),
        1 => sent(0x41, 0, 900 + offset, 200),
        // Held, and carried, up to each offset, where CLK is released or, after the last byte of commands, ATN.
        2 => sent(0x41, 0, 30, offset),
        3 => sent(0xC1, 0, 0, offset),
        // Carried up to each offset, then open: the take comes 1 or 60 ticks later, 2 later with too short a hold, or at
        // 999 to 1,001.
        4 => sent(0xC1, offset, 1 + offset, 200),
        5 => sent(0xC1, offset, 60 + offset, 200),
        6 => sent(0xC1, offset, 2 + offset, 99),
        7 => sent(0xC1, offset, 999, 200),
        8 => sent(0xC1, offset, 1000, 200),
        _ => sent(0xC1, offset, 1001, 200),
    }
}

#[derive(Clone, Copy)]
pub(crate) struct Handovers(pub Entry);

impl Class for Handovers {
    const NAME: &'static str = "handovers";

    const CASES: u32 = KINDS * OFFSETS * BYTES;

    fn entry(&self) -> Entry {
        self.0
    }

    fn put(&self, number: u32, file: &mut [u8]) -> Case {
        let kind = number / BYTES / OFFSETS % KINDS;
        let offset = number / BYTES % OFFSETS;
        Transfer {
            instead: Some((number % BYTES, sent_at(kind, offset))),
            ..Transfer::base(self.0)
        }
        .put(file);
        Case::of_file(file)
    }
}
