// The five wires, and their values.
ghost use Rattle.std.specs.Prelude.{◌≡◌};
ghost use Rattle.vcd.specs.Put.{Puts};
ghost use Rattle.vcd.specs.Wires.{bit_of, identifier_of, high_bit, level_of, value_text, change_text, each_wire};

use crate::window::Window;

#[derive(Clone, Copy)]
pub(crate) enum Wire {
    Atn,
    Clk,
    Data,
    Srq,
    // No line of the bus: where the recorder lost ticks.
    Lost,
}

// In the order in which they are put down.
const WIRES: [Wire; 5] = [Wire::Atn, Wire::Clk, Wire::Data, Wire::Srq, Wire::Lost];

impl Wire {
    // Document 01: "bit 0 ATN, 1 CLK, 2 DATA, 3 SRQ", 1 when pulled; bit 4 is LOST, 1 when ticks were lost.
    fn bit(self, shown: u8) -> u8
        ensures { result ≡ bit_of self shown }
    {
        match self {
            Wire::Atn => shown % 2,
            Wire::Clk => shown / 2 % 2,
            Wire::Data => shown / 4 % 2,
            Wire::Srq => shown / 8 % 2,
            Wire::Lost => shown / 16 % 2,
        }
    }

    fn identifier(self) -> u8
        ensures { result ≡ identifier_of self }
    {
        match self {
            Wire::Atn => b'A',
            Wire::Clk => b'C',
            Wire::Data => b'D',
            Wire::Srq => b'S',
            Wire::Lost => b'L',
        }
    }

    // The bit with which the wire is high. The lines' levels are electrical: a pulled line is 0.
    fn high(self) -> u8
        ensures { result ≡ high_bit self }
    {
        match self {
            Wire::Atn | Wire::Clk | Wire::Data | Wire::Srq => 0,
            Wire::Lost => 1,
        }
    }

    fn level(self, shown: u8) -> u8
        ensures { result ≡ level_of self shown }
    {
        if self.bit(shown) == self.high() {
            return b'1';
        }
        b'0'
    }
}

impl Window<'_> {
    // The value of one wire, as 0C or 1C.
    fn put_value(&mut self, shown: u8, wire: Wire)
        ensures { Puts (value_text shown wire) self.old self.new }
    {
        self.put_byte(wire.level(shown));
        self.put_byte(wire.identifier());
        self.put_byte(b'\n');
    }

    // The value of one wire, if it differs from what was shown before.
    fn put_change(&mut self, before: u8, shown: u8, wire: Wire)
        ensures { Puts (change_text before shown wire) self.old self.new }
    {
        if wire.bit(before) != wire.bit(shown) {
            self.put_value(shown, wire);
        }
    }

    // The value of every wire.
    pub(crate) fn put_values(&mut self, shown: u8)
        ensures { Puts (each_wire (value_text shown)) self.old self.new }
    {
        for wire in WIRES {
            self.put_value(shown, wire);
        }
    }

    // The values of those wires that differ.
    pub(crate) fn put_changes(&mut self, before: u8, shown: u8)
        ensures { Puts (each_wire (change_text before shown)) self.old self.new }
    {
        for wire in WIRES {
            self.put_change(before, shown, wire);
        }
    }
}
