// One case of the comparison: how its recording is judged, and what must come of it.
use crate::compared::Judged;
use crate::made::draft;

// How long the two buffers are, more than is asked for.
pub(crate) const BYTES: usize = 1200;

pub(crate) const LEDGER: usize = 2400;

#[derive(Clone, Copy)]
pub(crate) struct Case {
    // The recording's true length, and how many places of each buffer are lent.
    pub length: usize,
    pub bytes: usize,
    pub ledger: usize,
    // The title that its answer is printed with, if it is.
    pub title: Option<&'static str>,
    pub required: Required,
}

impl Case {
    // The recording as long as its header says, with all places lent; nothing is printed or required.
    pub(crate) fn of_file(file: &[u8]) -> Case {
        Case {
            length: draft::length(file),
            bytes: BYTES,
            ledger: LEDGER,
            title: None,
            required: Required::NOTHING,
        }
    }
}

// What must come of a recording besides the same from both judges: a number, a tick and a string, each if there is one.
#[derive(Clone, Copy)]
pub(crate) struct Required {
    pub number: Option<u32>,
    pub tick: Option<u32>,
    pub string: Option<Sending>,
}

impl Required {
    pub(crate) const NOTHING: Required = Required {
        number: None,
        tick: None,
        string: None,
    };

    // This number and, if there is one, this tick.
    pub(crate) fn verdict(number: u32, tick: Option<u32>) -> Required {
        Required {
            number: Some(number),
            tick,
            string: None,
        }
    }

    pub(crate) fn is_met(&self, judged: &Judged) -> bool {
        let it = judged.finding;
        self.number.is_none_or(|number| number == it.number)
            && self.tick.is_none_or(|tick| tick == it.tick)
            && self.string.is_none_or(|string| string.is_in(judged))
    }
}

// A byte that is handed over, and the last ticks at which its sender may let go and its receiver take.
#[derive(Clone, Copy)]
pub(crate) struct Due {
    pub value: u8,
    pub let_go: u32,
    pub take: u32,
}

// A string that is handed over: so many bytes, and no more. An array with a count, since this project uses no heap.
#[derive(Clone, Copy)]
pub(crate) struct Sending {
    pub count: u32,
    bytes: [Due; Sending::MOST],
}

impl Sending {
    pub(crate) const MOST: usize = 12;

    pub(crate) const NOTHING: Sending = Sending {
        count: 0,
        bytes: [Due {
            value: 0,
            let_go: 0,
            take: 0,
        }; Sending::MOST],
    };

    // A byte more, if there is room.
    pub(crate) fn push(&mut self, byte: Due) {
        let place = self.count as usize;
        if place < Sending::MOST {
            self.bytes[place] = byte;
            self.count += 1;
        }
    }

    fn is_in(&self, judged: &Judged) -> bool {
        let (ticks, _) = judged.ledger.as_chunks::<2>();
        let handed = judged.bytes.iter().zip(ticks);
        let mut due = self.bytes.iter().take(self.count as usize).zip(handed);
        self.count == judged.finding.count
            && due.all(|(due, (value, ticks))| {
                due.value == *value && ticks[0] <= due.let_go && ticks[1] <= due.take
            })
    }
}
