// What is printed.
use crate::case::{Case, Required};
use crate::compared::{Handed, Judged};
use crate::entry::Entry;
use crate::made::draft;
use crate::tally::Tally;
use second_judge::Finding;
use std::io::Write;
use std::{fmt, io};

// The class's name, the entry, and the number.
impl fmt::Display for Handed {
    fn fmt<W: fmt::Write>(&self, f: &mut fmt::Formatter<W>) -> fmt::Result {
        let class = self.class;
        let entry = self.entry.name();
        let number = self.number;
        write!(f, "{class:<10} {entry:<8} {number}")
    }
}

// What the judge found.
impl fmt::Display for Judged {
    fn fmt<W: fmt::Write>(&self, f: &mut fmt::Formatter<W>) -> fmt::Result {
        let Finding {
            number,
            tick,
            step,
            count,
        } = self.finding;
        write!(f, "{number} {tick} {step} {count}")
    }
}

// The greatest number stands for one that is not required, and the count 0 for any.
impl fmt::Display for Required {
    fn fmt<W: fmt::Write>(&self, f: &mut fmt::Formatter<W>) -> fmt::Result {
        let number = self.number.unwrap_or(u32::MAX);
        let tick = self.tick.unwrap_or(u32::MAX);
        let count = self.string.map_or(0, |string| string.count);
        write!(f, "{number} {tick} {count}")
    }
}

// A whole class, and how many of its recordings had each number.
pub(crate) fn print_class<W: Write>(
    out: &mut W,
    all: Handed,
    before: &Tally,
    after: &Tally,
) -> io::Result<()> {
    write!(out, "{all}")?;
    for number in &NUMBERS {
        let had = before.of(all.entry, *number);
        let has = after.of(all.entry, *number);
        if had != has {
            write!(out, " {number}:{}", has.wrapping_sub(had))?;
        }
    }
    writeln!(out)
}

// The answer; of a first byte that was handed over the two ticks too.
pub(crate) fn print_titled<W: Write>(out: &mut W, title: &str, judged: &Judged) -> io::Result<()> {
    write!(out, "{title:<24} {judged}")?;
    if judged.finding.count != 0 {
        write!(out, " {} {}", judged.ledger[0], judged.ledger[1])?;
    }
    writeln!(out)
}

// So many bytes of a recording are shown.
const MOST_SHOWN: usize = 1216;

// The case, what both judges gave, what was required, and the recording: each four bytes of it, the last one first.
pub(crate) fn print_difference<W: Write>(
    out: &mut W,
    file: &[u8],
    handed: Handed,
    case: &Case,
    first: &Judged,
    second: &Judged,
) -> io::Result<()> {
    let required = case.required;
    let alike = first.alike(second);
    writeln!(out, "difference in {handed}")?;
    writeln!(out, "  first judge {first}\n  second judge {second}")?;
    write!(
        out,
        "  buffers alike below, required number, tick and count"
    )?;
    writeln!(out, " {alike} {required}")?;
    print_words(out, draft::part(file, MOST_SHOWN))
}

fn print_words<W: Write>(out: &mut W, file: &[u8]) -> io::Result<()> {
    write!(out, " ")?;
    for bytes in file.chunks(4) {
        let word = draft::word_at(bytes, 0);
        write!(out, " {word:08x}")?;
    }
    writeln!(out)
}

// Every number that a judge may give.
const NUMBERS: [u8; 30] = [
    1, 2, 3, 4, 5, 6, 7, 8, 9, 20, 21, 22, 23, 24, 25, 26, 27, 28, 29, 30, 31, 32, 33, 34, 35, 36,
    37, 38, 39, 40,
];

// How many recordings of data and of commands had each number, how many numbers none had, and the differences.
pub(crate) fn print_tally<W: Write>(out: &mut W, tally: &Tally) -> io::Result<()> {
    for number in &NUMBERS {
        print_counts(out, tally, *number)?;
    }
    let missing = NUMBERS.iter().filter(|number| !tally.has(**number)).count();
    let differences = tally.differences;
    writeln!(out, "missing {missing}\ndifferences {differences}")
}

fn print_counts<W: Write>(out: &mut W, tally: &Tally, number: u8) -> io::Result<()> {
    let name = answer::name_of(u32::from(number));
    let of_data = tally.of(Entry::Plain, number);
    let of_commands = tally.of(Entry::Command, number);
    writeln!(out, "{number} {name} {of_data} {of_commands}")
}
