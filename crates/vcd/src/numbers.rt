// Numbers in decimal.
ghost use Rattle.vcd.specs.{Text.decimal, Put.Puts};

use crate::window::Window;

impl Window<'_> {
    // A number with no leading zeros: the digits before the last are those of a tenth.
    // By hand: what `write!` wrote is known only after an Ok, and not that it never answers Err, so that this clause does not follow.
    pub(crate) fn put_decimal(&mut self, n: u32)
        ensures { Puts (decimal n) self.old self.new }
    {
        if n >= 10 {
            self.put_decimal(n / 10);
        }
        self.put_byte(b'0' + (n % 10) as u8);
    }
}
