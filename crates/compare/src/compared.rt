// One recording before both judges, by the entry of its case: this is the only place where they are called.
use crate::case::{BYTES, Case, LEDGER};
use crate::classes::Class;
use crate::entry::Entry;
use crate::made::draft;
use crate::output;
use crate::tally::Tally;
use answer::Answer;
use second_judge::Finding;
use std::io;
use std::io::Write;

// What a judge gave, and both buffers whole.
#[derive(PartialEq, Eq, Drop)]
pub(crate) struct Judged {
    pub finding: Finding,
    pub bytes: [u8; BYTES],
    pub ledger: [u32; LEDGER],
}

impl Judged {
    // So many places of the buffers are lent. They hold the same beforehand, and no tick of a recording here.
    fn by<J: FnOnce(&mut [u8], &mut [u32]) -> Finding>(
        places: usize,
        ticks: usize,
        judge: J,
    ) -> Judged
        requires { J.IsAlwaysCallable judge }
    {
        let mut bytes = [0xEEu8; BYTES];
        let mut ledger = [0xEEEE_EEEEu32; LEDGER];
        let places = places.min(BYTES);
        let ticks = ticks.min(LEDGER);
        let finding = judge(&mut bytes[..places], &mut ledger[..ticks]);
        Judged {
            finding,
            bytes,
            ledger,
        }
    }

    // How many places of the ledgers are alike, with the bytes at their halves, before the first that is not.
    pub(crate) fn alike(&self, other: &Judged) -> usize {
        for place in 0..LEDGER {
            if self.ledger[place] != other.ledger[place]
                || self.bytes[place / 2] != other.bytes[place / 2]
            {
                return place;
            }
        }
        LEDGER
    }
}

// One function for each judge, since they are of two crates and answer by two types.
fn judge_first(entry: Entry, file: &[u8], bytes: &mut [u8], ledger: &mut [u32]) -> Finding {
    finding(match entry {
        Entry::Plain => judge::judge(file, bytes, ledger),
        Entry::Command => judge::judge_command(file, bytes, ledger),
    })
}

// No `From`: both types are of other crates, which are to know nothing of each other.
fn finding(answer: Answer) -> Finding {
    Finding {
        number: u32::from(answer.number),
        tick: answer.tick,
        step: answer.step,
        count: answer.count,
    }
}

fn judge_second(entry: Entry, file: &[u8], bytes: &mut [u8], ledger: &mut [u32]) -> Finding {
    match entry {
        Entry::Plain => second_judge::judge_by_steps(file, bytes, ledger),
        Entry::Command => second_judge::judge_command_by_steps(file, bytes, ledger),
    }
}

// A case of a class by its number, or all of them by how many they are; and the entry that they are handed to.
#[derive(Clone, Copy)]
pub(crate) struct Handed {
    pub class: &'static str,
    pub entry: Entry,
    pub number: u32,
}

// So many differences are shown.
const MOST_SHOWN: u32 = 8;

// What was counted so far, and where it is printed.
#[derive(Drop)]
pub(crate) struct Comparison<'a, W> {
    pub out: &'a mut W,
    pub tally: Tally,
}

impl<W: Write> Comparison<'_, W> {
    // Each case of a class.
    pub(crate) fn compare_class<C: Class>(&mut self, file: &mut [u8], class: &C) -> io::Result<()> {
        let before = self.tally;
        let mut handed = Handed {
            class: C::NAME,
            entry: class.entry(),
            number: 0,
        };
        for number in 0..C::CASES {
            handed.number = number;
            draft::begin(file);
            let case = class.put(number, file);
            self.compare(draft::part(file, case.length), handed, &case)?;
        }
        handed.number = C::CASES;
        output::print_class(self.out, handed, &before, &self.tally)
    }

    // Answers and both buffers whole must be the same, and what is required. Counts the recording.
    fn compare(&mut self, file: &[u8], handed: Handed, case: &Case) -> io::Result<()> {
        let entry = handed.entry;
        let first = Judged::by(case.bytes, case.ledger, |bytes, ledger| {
            judge_first(entry, file, bytes, ledger)
        });
        let second = Judged::by(case.bytes, case.ledger, |bytes, ledger| {
            judge_second(entry, file, bytes, ledger)
        });
        if let Some(title) = case.title {
            output::print_titled(self.out, title, &first)?;
        }
        self.tally.count(entry, first.finding.number);
        if first == second && case.required.is_met(&first) {
            return Ok(());
        }
        if self.tally.differences < MOST_SHOWN {
            output::print_difference(self.out, file, handed, case, &first, &second)?;
        }
        self.tally.differ();
        Ok(())
    }
}
