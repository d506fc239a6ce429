// One step: the lines as they stand for a number of ticks.
ghost use Rattle.std.specs.Prelude.{◌+◌, ◌≤◌, length, ◌≡◌};
ghost use Rattle.std.proofs.lemmas.List.Edits.{sets};
ghost use Rattle.recording.specs.{Layout.step_at, Layout.step_place, Layout.step_size, Layout.is_marked, Form.step_test, FileOf.step_bytes};

use crate::fields;
use crate::header::Header;
use answer::Refusal;

#[derive(Clone, Copy)]
pub struct Step {
    pub duration: u16,
    pub lines: u8,
    pub last: u8,
}

impl Step {
    pub const SIZE: usize = 4;

    // The lines are bits 0 to 3, so a byte with no other bit is below this.
    pub const LINE_BOUND: u8 = 16;

    // The last byte of a step before which the recorder lost ticks; that of any other step is 0.
    pub const MARK: u8 = 1;

    pub fn read(file: &[u8], index: usize) -> Step
        requires { step_place index + step_size ≤ length file.now }
        ensures { result ≡ step_at file.now index }
    {
        let at = Header::SIZE + Step::SIZE * index;
        let duration = fields::u16_at(file, at);
        Step {
            duration,
            lines: file[at + 2],
            last: file[at + 3],
        }
    }

    pub fn write(self, destination: &mut [u8], index: usize)
        requires { step_place index + step_size ≤ length destination.old }
        ensures { destination.new ≡ sets destination.old (step_place index) (step_bytes self) }
    {
        let at = Header::SIZE + Step::SIZE * index;
        fields::put(destination, at, self.duration.to_le_bytes());
        destination[at + 2] = self.lines;
        destination[at + 3] = self.last;
    }

    // Whether ticks were lost before the step.
    pub fn marked(self) -> bool
        ensures { result ≡ is_marked self }
    {
        self.last == Step::MARK
    }

    // Refusals 6 and 7.
    #[tactic(auto, using(crate::proofs::Tests::tests), unfolding(crate::specs::Form::step_test))]
    pub(crate) fn test(self) -> Result<(), Refusal>
        ensures { result ≡ step_test self }
    {
        if self.duration == 0 {
            return Err(Refusal::ZeroDuration);
        }
        if Step::LINE_BOUND <= self.lines || Step::MARK < self.last {
            return Err(Refusal::StrayBits);
        }
        Ok(())
    }
}
