// The window through which a text is put down. A text is made whole each time; the window takes what lies in it.
ghost use Rattle.std.specs.Prelude.{[], ◌∷◌, ◌≡◌};
ghost use Rattle.vcd.specs.Put.{window_at, Puts};

// A window onto a text, and the lent destination that takes what lies in it.
#[derive(Drop)]
pub(crate) struct Window<'a> {
    destination: &'a mut [u8],
    // How many bytes of the text still stand before the window.
    ahead: u32,
    // How many bytes were put down.
    pub count: usize,
}

impl<'a> Window<'a> {
    // Before the text: so many bytes are passed over first.
    pub(crate) fn at(destination: &'a mut [u8], offset: u32) -> Window<'a>
        ensures { result ≡ window_at offset destination.entry }
    {
        Window {
            destination,
            ahead: offset,
            count: 0,
        }
    }

    // One byte of a text: passed over, put down, or left out where no room is left.
    #[tactic(auto, using(recording::proofs::Tests::tests), unfolding(crate::specs::Put::put_byte, crate::specs::Put::put))]
    pub(crate) fn put_byte(&mut self, byte: u8)
        ensures { Puts (byte ∷ []) self.old self.new }
    {
        if self.ahead > 0 {
            self.ahead -= 1;
        } else if self.count < self.destination.len() {
            self.destination[self.count] = byte;
            self.count += 1;
        }
    }

    // A text, byte after byte.
    pub(crate) fn put_text(&mut self, text: &[u8])
        ensures { Puts text.now self.old self.new }
    {
        for byte in text {
            self.put_byte(*byte);
        }
    }
}
