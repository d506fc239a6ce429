// Document 01's sample recordings, held to its numbers and ticks. Their answers are printed.
use crate::case::{Case, Required};
use crate::classes::Class;
use crate::entry::Entry;
use crate::made::draft;
use crate::made::manner::Manner;
use crate::made::transfers::Transfer;

// What a sample is before a step of it is changed.
#[derive(Clone, Copy)]
enum Begun {
    NoSteps,
    // 256 ticks (1,0).
    Waiting,
    // Written from no bytes.
    NoBytes,
    // Written from 0x41.
    S1,
    // The same with SRQ set everywhere.
    S1Srq,
    // The byte 0x80 without its step 30:2.
    Carried,
}

use Begun::{Carried, NoBytes, NoSteps, S1, S1Srq, Waiting};

// The title, how it is made, and the verdict with its tick, if that is given.
#[derive(Clone, Copy)]
struct Sample {
    title: &'static str,
    begun: Begun,
    change: Option<Change>,
    number: u32,
    tick: Option<u32>,
}

// What is done to it: a step gets another duration and other lines, or a further step is added.
#[derive(Clone, Copy)]
enum Change {
    Set(u32, u32, u8),
    Add(u32, u8),
}

fn titled(title: &'static str, begun: Begun, number: u32, tick: Option<u32>) -> Sample {
    Sample {
        title,
        begun,
        change: None,
        number,
        tick,
    }
}

impl Sample {
    fn set(self, step: u32, duration: u32, lines: u8) -> Sample {
        Sample {
            change: Some(Change::Set(step, duration, lines)),
            ..self
        }
    }

    fn add(self, duration: u32, lines: u8) -> Sample {
        Sample {
            change: Some(Change::Add(duration, lines)),
            ..self
        }
    }
}

// A match and no array, since a constant can't call `titled`.
fn sample_at(number: u32) -> Sample {
    match number {
        0 => titled("S1", S1, 20, Some(1910)),
        1 => titled("S1, SRQ set everywhere", S1Srq, 20, Some(1910)),
        2 => titled("S1, ATN in its last step", S1, 23, Some(1910)).set(24, 100, 1),
        3 => titled("S1, a further step 1:2", S1, 37, Some(2010)).add(1, 2),
        4 => titled("S1 with 199 for 220", S1, 26, Some(449)).set(2, 199, 0),
        5 => titled("S1 with 200 for 220", S1, 20, None).set(2, 200, 0),
        6 => titled("S1 with 59 for 80", S1, 28, Some(529)).set(3, 59, 4),
        7 => titled("S1 with 61 for 40", S1, 30, Some(611)).set(4, 61, 0),
        8 => titled("S1 with 60 for 40", S1, 20, None).set(4, 60, 0),
        9 => titled("S1 with first valid 19", S1, 32, Some(679)).set(6, 19, 4),
        10 => titled("S1 with first valid 20", S1, 20, None).set(6, 20, 4),
        11 => titled("S1 with 1001 for 30", S1, 35, Some(2630)).set(21, 1001, 2),
        12 => titled("S1 with 1000 for 30", S1, 20, None).set(21, 1000, 2),
        13 => titled("S1 with its last hold 99", S1, 36, Some(1759)).set(22, 99, 6),
        14 => titled("no steps", NoSteps, 22, Some(0)),
        15 => titled("written from no bytes", NoBytes, 21, Some(762)),
        16 => titled("(1,0) for 257 ticks", NoSteps, 24, Some(256)).add(257, 2),
        17 => titled("(1,0) 256, then (1,1)", Waiting, 22, None).add(1, 6),
        18 => titled("0x80, no 30:2, hold 100", Carried, 36, Some(1730)).set(21, 100, 6),
        _ => titled("0x80, no 30:2, hold 101", Carried, 20, None).set(21, 101, 6),
    }
}

#[derive(Clone, Copy)]
pub(crate) struct Samples;

impl Class for Samples {
    const NAME: &'static str = "samples";

    const CASES: u32 = 20;

    fn entry(&self) -> Entry {
        Entry::Plain
    }

    fn put(&self, number: u32, file: &mut [u8]) -> Case {
        let sample = sample_at(number);
        put_begun(file, sample.begun);
        match sample.change {
            None => {}
            Some(Change::Set(step, duration, lines)) => {
                draft::set_duration(file, step, duration);
                draft::set_lines(file, step, lines);
            }
            Some(Change::Add(duration, lines)) => draft::add(file, duration, lines),
        }
        Case {
            title: Some(sample.title),
            required: Required::verdict(sample.number, sample.tick),
            ..Case::of_file(file)
        }
    }
}

fn put_begun(file: &mut [u8], begun: Begun) {
    match begun {
        NoSteps => {}
        Waiting => draft::add(file, 256, draft::CLK),
        NoBytes => put_written(&[], file),
        S1 => put_written(&[0x41], file),
        S1Srq => put_byte(file, 0, draft::SRQ),
        Carried => put_byte(file, 2, 0),
    }
}

fn put_written(string: &[u8], file: &mut [u8]) {
    let _ = writer::write(string, file);
}

// One byte of the base alone, with these lines set everywhere.
fn put_byte(file: &mut [u8], first: u32, more: u8) {
    Transfer {
        manner: Manner {
            more,
            ..Manner::PLAIN
        },
        count: 1,
        first,
        ..Transfer::base(Entry::Plain)
    }
    .put(file);
}
