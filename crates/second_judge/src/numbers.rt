// The numbers of document 01's "Numbers and what they leave", and those that document 02 adds.
ghost use Rattle.std.specs.Prelude.{◌≡◌};
ghost use Rattle.second_judge.specs.Numbers.{number_of};

use crate::Finding;

#[derive(Clone, Copy)]
pub enum Refusal {
    FewerThan16Bytes = 1,
    Version = 2,
    TooManySteps = 3,
    Offset = 4,
    Length = 5,
    DurationZero = 6,
    OtherBits = 7,
    TotalTicks = 8,
    TooFewPlaces = 9,
}

#[derive(Clone, Copy)]
pub enum Verdict {
    Complete = 20,
    EmptyStream = 21,
    Cut = 22,
    Attention = 23,
    NoReceiver = 24,
    BadStart = 25,
    OutOfTurn = 26,
    EndMarkNotAcknowledged = 27,
    AcknowledgementShort = 28,
    AcknowledgementLong = 29,
    LateClock = 30,
    SenderTimeOut = 31,
    ValidTimeShort = 32,
    DataMoved = 33,
    ClockStall = 34,
    ReceiverTimeOut = 35,
    Hurried = 36,
    MovedAfterTheEnd = 37,
    // Verdicts of document 02's #101: "in D, (0,0) at offset 199 gives 38 (end mark under attention)"; "ATN released
    // otherwise .. gives 39".
    EndMarkUnderAttention = 38,
    AttentionReleased = 39,
    // The verdict of document 02's #103, recorder overruns: "The first tick of a marked step gives verdict 40".
    Overrun = 40,
}

impl Verdict {
    // "A verdict carries the deciding tick and the step holding it." "Its count is the bytes handed over."
    pub fn at(self, tick: u32, step: u32, count: u32) -> Finding
        ensures { (result.number ≡ number_of self) × (result.tick ≡ tick) × (result.step ≡ step) × (result.count ≡ count) }
    {
        Finding {
            number: self as u32,
            tick,
            step,
            count,
        }
    }
}
