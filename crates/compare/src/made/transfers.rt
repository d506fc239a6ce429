// Whole transfers, and their bytes.
use crate::case::{Due, Sending};
use crate::entry::Entry;
use crate::made::draft;
use crate::made::manner::Manner;
use crate::made::pieces::Pen;
use crate::made::random::Random;

// A byte, and how it is handed over.
#[derive(Clone, Copy)]
pub(crate) struct Sent {
    pub value: u8,
    // If bit 8 is one the sender lets go of DATA, and the receiver takes it, so many ticks after the CLK pull after it.
    pub let_go: u32,
    pub take: u32,
    // CLK stays pulled so long after the take.
    pub hold: u32,
}

impl Sent {
    // The sender stops at offset 0 to 100, and at 0 where bit 8 is zero. The receiver takes DATA at offset 1 to 1,000,
    // every other time within reach of the sender's stop. CLK is released 100 ticks or more after the take.
    fn drawn(random: Random) -> Sent {
        let first = random.next();
        let second = first.next();
        let third = second.next();
        let value = first.byte();
        Sent {
            value,
            let_go: second.within(0..=u32::from(value / 128) * 100),
            take: third.within(1..=101 + (third.state / 8 % 2) as u32 * 899),
            hold: first.within(100..=400),
        }
    }

    // DATA is pulled by the sender before its letting go, and by the receiver from its take on.
    fn put_handover(self, pen: &mut Pen) {
        if self.take <= self.let_go {
            return pen.put_ticks(self.take.wrapping_add(self.hold), draft::BOTH);
        }
        pen.put_ticks(self.let_go, draft::BOTH);
        pen.put_ticks(self.take - self.let_go, draft::CLK);
        pen.put_ticks(self.hold, draft::BOTH);
    }
}

// The bytes where nothing is drawn, and their letting go and take: bit 8 zero, and each way to hand over a one: let go at
// once, carried up to CLK's release, carried and then open.
const BYTES: [(u8, u32, u32); 4] = [(0x41, 0, 30), (0xC1, 0, 30), (0x80, 1, 1), (0xF0, 40, 70)];

#[derive(Clone, Copy)]
pub(crate) struct Transfer {
    pub manner: Manner,
    // The entry that it is made for.
    pub entry: Entry,
    // How many bytes there are, and which of those above is the first.
    pub count: u32,
    pub first: u32,
    // CLK stays pulled so long after their takes.
    pub hold: u32,
    // The byte with this number, if there is one, is this.
    pub instead: Option<(u32, Sent)>,
}

// What was put down: the finish tick, and the string, no ledger tick being later than its own.
#[derive(Clone, Copy)]
pub(crate) struct Made {
    pub finish: u32,
    pub string: Sending,
}

impl Transfer {
    // The four bytes above, for either entry; ATN is pulled up to the finish of commands.
    pub(crate) fn base(entry: Entry) -> Transfer {
        Transfer {
            manner: Manner {
                more: entry.attention(),
                ..Manner::PLAIN
            },
            entry,
            count: 4,
            first: 0,
            hold: 200,
            instead: None,
        }
    }

    // The last byte of data has the end mark, and none of commands.
    fn has_end_mark(self, index: u32) -> bool {
        match self.entry {
            Entry::Plain => index.wrapping_add(1) == self.count,
            Entry::Command => false,
        }
    }

    fn sent_at(self, index: u32, manner: Manner) -> Sent {
        if let Some((place, sent)) = self.instead {
            if place == index {
                return sent;
            }
        }
        match manner.random {
            Some(random) => Sent::drawn(random),
            None => self.plain_at(index),
        }
    }

    fn plain_at(self, index: u32) -> Sent {
        let (value, let_go, take) = BYTES[(self.first.wrapping_add(index) % 4) as usize];
        Sent {
            value,
            let_go,
            take,
            hold: self.hold,
        }
    }

    // Puts it down. If it keeps the two parties' own rules, 20 must come of it with its finish tick and its string.
    pub(crate) fn put(self, file: &mut [u8]) -> Made {
        let mut pen = Pen {
            file,
            manner: self.manner,
        };
        let mut string = Sending::NOTHING;
        pen.put_start();
        for index in 0..self.count {
            string.push(self.put_byte(&mut pen, index));
        }
        let finish = pen.put_end(self.entry);
        Made { finish, string }
    }

    fn put_byte(self, pen: &mut Pen, index: u32) -> Due {
        let sent = self.sent_at(index, pen.manner);
        pen.draw();
        pen.draw();
        pen.put_lead(self.has_end_mark(index));
        pen.put_bits(sent.value);
        let pull = pen.total();
        sent.put_handover(pen);
        Due {
            value: sent.value,
            let_go: pull.wrapping_add(sent.let_go),
            take: pull.wrapping_add(sent.take),
        }
    }
}
