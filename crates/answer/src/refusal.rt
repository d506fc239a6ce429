// The refusals of every entry, in the order of document 01's table and of document 02's requests, and their numbers.
ghost use Rattle.std.specs.Prelude.{◌≡◌};
ghost use Rattle.answer.specs.Numbers.{refusal_number};

#[derive(Clone, Copy)]
pub enum Refusal {
    ShortFile = 1,
    WrongVersion = 2,
    TooManySteps = 3,
    WrongOffset = 4,
    WrongLength = 5,
    ZeroDuration = 6,
    StrayBits = 7,
    WrongTotal = 8,
    ShortBuffers = 9,
    TooManyBytes = 10,
    ShortDestination = 11,
    NoSuchSeat = 13,
    VacantSeat = 14,
    SeatInUse = 15,
    NotFortySeats = 16,
}

impl Refusal {
    pub fn number(self) -> u8
        ensures { result ≡ refusal_number self }
    {
        self as u8
    }
}

// A refusal with the step that it names: the offending one for 6 and 7, otherwise 0.
#[derive(Clone, Copy)]
pub struct Refused {
    pub refusal: Refusal,
    pub step: u32,
}

impl From<Refusal> for Refused {
    ghost from_gives = { λ refusal r. r ≡ record { refusal = refusal; step = 0 } };

    fn from(refusal: Refusal) -> Refused {
        Refused { refusal, step: 0 }
    }
}
