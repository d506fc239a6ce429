// How many ticks a written recording has.
ghost use Rattle.std.specs.Prelude.{◌+◌, ◌*◌, ◌≤◌, ◌≡◌};
ghost use Rattle.writer.specs.Written.{most_bytes, written_ticks};

use crate::card::Card;

// The ticks of the pieces of src/steps.rt.
impl Card {
    fn opening_ticks(self) -> u32
        ensures { result ≡ self.hold + self.ready_to_send }
    {
        self.hold as u32 + self.ready_to_send as u32
    }

    fn acknowledged_ticks(self, after: u16) -> u32
        ensures { result ≡ self.end_gap + self.acknowledgement + after }
    {
        self.end_gap as u32 + self.acknowledgement as u32 + after as u32
    }

    fn value_ticks(self) -> u32
        ensures { result ≡ 8 * (self.set_up + self.valid) + self.take }
    {
        8 * (self.set_up as u32 + self.valid as u32) + self.take as u32
    }

    // The ticks of all steps that are put down for so many bytes. The times are 16 bits wide, so that 799 bytes stay below 2^32 ticks.
    pub(crate) fn total_ticks(self, count: u32) -> u32
        requires { count ≤ most_bytes }
        ensures { result ≡ written_ticks self count }
    {
        let opening = self.opening_ticks();
        if count == 0 {
            return opening + self.acknowledged_ticks(self.no_response);
        }
        let value = self.value_ticks();
        let others = (count - 1) * (opening + self.gap as u32 + value);
        let last = opening + self.acknowledged_ticks(self.response) + value;
        others + last + (opening + self.silence as u32)
    }
}
