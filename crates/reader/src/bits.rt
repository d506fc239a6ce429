// The eight bits of a byte, least significant first: set-up and valid.
ghost use Rattle.std.specs.Prelude.{◌≡◌};
ghost use Rattle.transfer.specs.Phases.{with_bit};
ghost use Rattle.reader.specs.States.{read_in};

use crate::moment::Moment;
use crate::state::State;
use answer::Fault;
use transfer::Phase;

// The bits so far, least significant first, and one more: it comes in at the top, and eight bring the first to the bottom.
#[tactic(auto, unfolding(transfer::specs::Phases::with_bit))]
fn with_bit(value: u8, bit: bool) -> u8
    ensures { result ≡ with_bit value bit }
{
    if bit { value / 2 + 128 } else { value / 2 }
}

impl Moment {
    // Set-up: CLK pulled, DATA free.
    #[tactic(auto, unfolding(transfer::specs::Phases::next, transfer::specs::Phases::same))]
    pub(crate) fn set_up(
        self,
        end_mark: bool,
        value: u8,
        last: bool,
        since: u32,
        bits_left: u32,
    ) -> State
        ensures { result ≡ read_in self.limits self.state (Phase.SetUp end_mark value last since bits_left) self.lines }
    {
        let now = self.state.tick;
        match (self.lines.clk, self.lines.data) {
            (true, data) if self.below(self.limits.set_up_most, since) => {
                self.go(Phase::SetUp(end_mark, value, data, since, bits_left))
            }
            (true, _) => self.stop(Fault::ClockStall),
            (false, data) if last == data => {
                self.go(Phase::Valid(end_mark, value, data, now, bits_left))
            }
            (false, _) => self.stop(Fault::DataMoved),
        }
    }

    // Valid: CLK released, DATA steady.
    #[tactic(auto, unfolding(transfer::specs::Phases::next, transfer::specs::Phases::same, transfer::specs::Phases::after_bit))]
    pub(crate) fn valid(
        self,
        end_mark: bool,
        value: u8,
        bit: bool,
        since: u32,
        bits_left: u32,
    ) -> State
        ensures { result ≡ read_in self.limits self.state (Phase.Valid end_mark value bit since bits_left) self.lines }
    {
        let limits = self.limits;
        let now = self.state.tick;
        match (self.lines.clk, self.lines.data) {
            (false, data) if bit != data => self.stop(Fault::DataMoved),
            (false, _) if self.below(limits.valid_most, since) => {
                self.go(Phase::Valid(end_mark, value, bit, since, bits_left))
            }
            (false, _) => self.stop(Fault::ClockStall),
            (true, _) if self.below(limits.valid_least, since) => self.stop(Fault::ValidTimeShort),
            (true, _) if bits_left == 0 => self.handover(end_mark, with_bit(value, bit), bit),
            (true, data) => {
                self.go(Phase::SetUp(end_mark, with_bit(value, bit), data, now, bits_left - 1))
            }
        }
    }
}
