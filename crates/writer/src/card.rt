// The durations that the writer puts down.
ghost use Rattle.std.specs.Prelude.{◌≡◌};
ghost use Rattle.writer.specs.Card.{standard_card};

// Each duration in ticks, named once. (c,d) is CLK=c, DATA=d.
#[derive(Clone, Copy)]
pub struct Card {
    // Both parties hold their lines: (1,1).
    pub hold: u16,
    // The sender is ready to send: (0,1).
    pub ready_to_send: u16,
    // The receiver is ready for data, before a byte that is not the last: (0,0).
    pub gap: u16,
    // A bit's set-up and valid times: (1,b), (0,b).
    pub set_up: u16,
    pub valid: u16,
    // From the CLK pull after bit 8 to the receiver's take: (1,0).
    pub take: u16,
    // Before the last byte, up to the receiver's acknowledgement: (0,0).
    pub end_gap: u16,
    // The acknowledgement: (0,1).
    pub acknowledgement: u16,
    // From the acknowledgement to the sender's CLK pull: (0,0).
    pub response: u16,
    // After the last letting go: (0,0).
    pub silence: u16,
    // No byte to send: the sender doesn't respond to the acknowledgement: (0,0).
    pub no_response: u16,
}

impl Card {
    // Document 01's times.
    pub fn standard() -> Card
        ensures { result ≡ standard_card }
    {
        Card {
            hold: 200,
            ready_to_send: 50,
            gap: 60,
            set_up: 70,
            valid: 60,
            take: 30,
            end_gap: 220,
            acknowledgement: 80,
            response: 40,
            silence: 100,
            no_response: 300,
        }
    }
}
