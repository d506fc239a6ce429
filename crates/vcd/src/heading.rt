// The declarations that a dump begins with: the timescale, and each wire, of one bit, with its identifier.
ghost use Rattle.vcd.specs.{Dump.heading, Put.Puts};

use crate::window::Window;

impl Window<'_> {
    #[tactic(auto, unfolding(crate::specs::Dump::heading))]
    pub(crate) fn put_heading(&mut self)
        ensures { Puts heading self.old self.new }
    {
        self.put_text(
            b"$timescale 1 us $end\n\
            $scope module iec $end\n\
            $var wire 1 A ATN $end\n\
            $var wire 1 C CLK $end\n\
            $var wire 1 D DATA $end\n\
            $var wire 1 S SRQ $end\n\
            $var wire 1 L LOST $end\n\
            $upscope $end\n\
            $enddefinitions $end\n",
        );
    }
}
