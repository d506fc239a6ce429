// What a reading can come to, and the number that document 01 or a request of document 02 gives each.
ghost use Rattle.std.specs.Prelude.{◌≡◌};
ghost use Rattle.answer.specs.Numbers.{verdict_number};

// Why a tick ends the reading.
#[derive(Clone, Copy)]
pub enum Fault {
    EmptyStream = 21,
    Attention = 23,
    NoReceiver = 24,
    BadStart = 25,
    OutOfTurn = 26,
    EndMarkNotAcknowledged = 27,
    AcknowledgementShort = 28,
    AcknowledgementLong = 29,
    LateClock = 30,
    SenderTimeout = 31,
    ValidTimeShort = 32,
    DataMoved = 33,
    ClockStall = 34,
    ReceiverTimeout = 35,
    Hurried = 36,
    MovedAfterEnd = 37,
    EndMarkUnderAttention = 38,
    AttentionReleased = 39,
    Overrun = 40,
}

// Only a recording that runs out in phase E, or after the finish of commands, is complete: no tick can decide so.
#[derive(Clone, Copy)]
pub enum Verdict {
    Complete,
    Cut,
    Broken(Fault),
}

impl Fault {
    pub fn number(self) -> u8
        ensures { result ≡ verdict_number (Verdict.Broken self) }
    {
        self as u8
    }
}

impl Verdict {
    pub fn number(self) -> u8
        ensures { result ≡ verdict_number self }
    {
        match self {
            Verdict::Complete => 20,
            Verdict::Cut => 22,
            Verdict::Broken(fault) => fault.number(),
        }
    }
}
