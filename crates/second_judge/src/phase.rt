// "The judge's phases", and what a tick leads to.
ghost use Rattle.std.specs.Prelude.{◌≡◌};
ghost use Rattle.second_judge.specs.Phases.{phase_after};

#[derive(Clone, Copy)]
pub enum Phase {
    // A.
    Start,
    // B.
    Hold,
    // C.
    ReadyToSend,
    // D.
    ReadyForData,
    // F.
    Acknowledgement,
    // G, which has no name in document 01: the acknowledgement is over, the clock is awaited.
    Acknowledged,
    // Bits: CLK pulled, DATA free.
    SetUp,
    // Bits: CLK released, DATA steady.
    Valid,
    // Handover: "bit 8 one, DATA pulled without a break".
    Carried,
    // Handover: "DATA has been seen released".
    Open,
    // E; in a command recording, after the finish.
    End,
}

// What a tick leads to, unless to a verdict, at which the reading "stops for good".
#[derive(Clone, Copy)]
pub enum Next {
    // "stay".
    Stay,
    // "go to".
    Go(Phase),
    // To C, "after a byte hands that byte over".
    HandOver,
    // From carried to open: "open from here".
    OpenFromHere,
    // To E by the finish of #101, which "hands the last byte over".
    Finish,
}

impl Phase {
    // The phase after a tick that is read in this one.
    pub fn after(self, next: Next) -> Phase
        ensures { result ≡ phase_after self next }
    {
        match next {
            Next::Stay => self,
            Next::Go(phase) => phase,
            Next::HandOver => Phase::ReadyToSend,
            Next::OpenFromHere => Phase::Open,
            Next::Finish => Phase::End,
        }
    }
}
