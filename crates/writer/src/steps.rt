// The pieces of a written recording, put down one after another.
ghost use Rattle.std.specs.Prelude.{◌+◌, ◌≤◌, [], ◌∷◌, ◌≡◌};
ghost use Rattle.writer.specs.Put.{before_steps, Room, Put};
ghost use Rattle.writer.specs.WrittenSteps.{shows, bit_steps, byte_steps, plain_gap, sent_steps, closing, empty_steps, opening};
ghost use Rattle.writer.specs.WrittenSteps.{acknowledged, value_steps};

use crate::card::Card;
use recording::Step;

// Where steps are put down, and how long they last.
#[derive(Drop)]
pub(crate) struct StepWriter<'a> {
    destination: &'a mut [u8],
    // The number of the step that comes next.
    next: usize,
    card: Card,
}

impl<'a> StepWriter<'a> {
    // Before the first step.
    pub(crate) fn new(destination: &'a mut [u8], card: Card) -> StepWriter<'a>
        ensures { result ≡ before_steps destination.entry card }
    {
        StepWriter {
            destination,
            next: 0,
            card,
        }
    }

    // The lines (clk,dat) for so many ticks. CLK is bit 1 of the line byte, DATA bit 2. Both are 0 or 1 and no bool: `shows` takes numbers,
    // and the bits of a value are numbers too.
    fn put_lines(&mut self, clk: u8, dat: u8, duration: u16)
        requires { (clk ≤ 1) × (dat ≤ 1) × Room self.old 1 }
        ensures { Put (shows clk dat duration ∷ []) self.old self.new }
    {
        let step = Step {
            duration,
            lines: 2 * clk + 4 * dat,
            last: 0,
        };
        step.write(self.destination, self.next);
        self.next += 1;
    }

    // Both hold, then the sender is ready to send: every byte, the closing and the empty stream begin so.
    fn put_opening(&mut self)
        requires { Room self.old 2 }
        ensures { Put (opening self.old.card) self.old self.new }
    {
        self.put_lines(1, 1, self.card.hold);
        self.put_lines(0, 1, self.card.ready_to_send);
    }

    // The long gap, the receiver's acknowledgement, and so many ticks after it.
    fn put_acknowledged(&mut self, after: u16)
        requires { Room self.old 3 }
        ensures { Put (acknowledged self.old.card after) self.old self.new }
    {
        self.put_lines(0, 0, self.card.end_gap);
        self.put_lines(0, 1, self.card.acknowledgement);
        self.put_lines(0, 0, after);
    }

    // The eight bits, least significant first. Inline, as `put_value`: a call would read back, for each step, where it goes and how long it
    // lasts.
    #[inline(always)]
    fn put_bits(&mut self, value: u8)
        requires { Room self.old 16 }
        ensures { Put (bit_steps self.old.card 8 value) self.old self.new }
    {
        for bit in 0..8u32 {
            let dat = (value >> bit) % 2;
            self.put_lines(1, dat, self.card.set_up);
            self.put_lines(0, dat, self.card.valid);
        }
    }

    // The bits, and the wait for the take.
    #[inline(always)]
    fn put_value(&mut self, value: u8)
        requires { Room self.old 17 }
        ensures { Put (value_steps self.old.card value) self.old self.new }
    {
        self.put_bits(value);
        self.put_lines(1, 0, self.card.take);
    }

    // A byte that is not the last.
    pub(crate) fn put_byte(&mut self, value: u8)
        requires { Room self.old 20 }
        ensures { Put (byte_steps self.old.card (plain_gap self.old.card) value) self.old self.new }
    {
        self.put_opening();
        self.put_lines(0, 0, self.card.gap);
        self.put_value(value);
    }

    // The last letting go, and the silence after it.
    fn put_closing(&mut self)
        requires { Room self.old 3 }
        ensures { Put (closing self.old.card) self.old self.new }
    {
        self.put_opening();
        self.put_lines(0, 0, self.card.silence);
    }

    // The last byte, and the closing.
    pub(crate) fn put_last_byte(&mut self, value: u8)
        requires { Room self.old 25 }
        ensures { Put (sent_steps self.old.card value []) self.old self.new }
    {
        self.put_opening();
        self.put_acknowledged(self.card.response);
        self.put_value(value);
        self.put_closing();
    }

    // No byte to send: the sender does not respond to the acknowledgement.
    pub(crate) fn put_no_bytes(&mut self)
        requires { Room self.old 5 }
        ensures { Put (empty_steps self.old.card) self.old self.new }
    {
        self.put_opening();
        self.put_acknowledged(self.card.no_response);
    }
}
