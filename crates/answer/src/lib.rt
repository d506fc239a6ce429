// What an entry answers: its number, by name, and what goes with it.
#![tactic(auto)]

ghost use Rattle.std.specs.Prelude.{◌≡◌, Some};
ghost use Rattle.answer.specs.Answers.{refused, accepted, answered, answer_text};

mod names;
mod refusal;
mod verdict;

pub use crate::names::{in_room, name_of};
pub use crate::refusal::{Refusal, Refused};
pub use crate::verdict::{Fault, Verdict};
use std::fmt;

// Document 01: "An answer is a number, a tick, a step and a count." A number and no enum: the four cross to C as they are, and what the
// judge promises (`JudgePromise`) speaks of them.
#[derive(Clone, Copy)]
pub struct Answer {
    pub number: u8,
    pub tick: u32,
    pub step: u32,
    pub count: u32,
}

impl Answer {
    pub fn refused(refusal: Refusal, step: u32) -> Answer
        ensures { result ≡ refused refusal step }
    {
        Answer {
            number: refusal.number(),
            tick: 0,
            step,
            count: 0,
        }
    }

    pub fn accepted(count: u32) -> Answer
        ensures { result ≡ accepted count }
    {
        Answer {
            number: 0,
            tick: 0,
            step: 0,
            count,
        }
    }
}

// The answer of what either gives a count or is refused.
impl From<Result<u32, Refused>> for Answer {
    ghost from_gives = { λ outcome answer. answer ≡ answered outcome };

    fn from(outcome: Result<u32, Refused>) -> Answer {
        match outcome {
            Ok(count) => Answer::accepted(count),
            Err(refused) => Answer::from(refused),
        }
    }
}

impl From<Refused> for Answer {
    ghost from_gives = { λ r answer. answer ≡ refused r.refusal r.step };

    fn from(refused: Refused) -> Answer {
        Answer::refused(refused.refusal, refused.step)
    }
}

// As `NUMBER TICK STEP COUNT NAME`.
impl fmt::Display for Answer {
    ghost output = { λ answer. Some (answer_text answer) };

    fn fmt<W: fmt::Write>(&self, f: &mut fmt::Formatter<W>) -> fmt::Result {
        let name = name_of(u32::from(self.number));
        write!(
            f,
            "{} {} {} {} {name}",
            self.number, self.tick, self.step, self.count
        )
    }
}
