// The lines at one tick, decoded from a line byte in this place alone.
ghost use Rattle.std.specs.Prelude.{◌≡◌};
ghost use Rattle.transfer.specs.Lines.{lines_of};

// A line is true when pulled. SRQ changes no answer and is not looked at.
#[derive(Clone, Copy)]
pub struct Lines {
    pub atn: bool,
    pub clk: bool,
    pub data: bool,
}

// Bit 0 is ATN, bit 1 CLK, bit 2 DATA.
impl From<u8> for Lines {
    ghost from_gives = { λ byte lines. lines ≡ lines_of byte };

    fn from(byte: u8) -> Lines {
        let atn = byte % 2 == 1;
        let clk = byte / 2 % 2 == 1;
        let data = byte / 4 % 2 == 1;
        Lines { atn, clk, data }
    }
}
