// The header: the first sixteen bytes of a recording.
ghost use Rattle.std.specs.Prelude.{◌≤◌, length, ◌≡◌};
ghost use Rattle.std.proofs.lemmas.List.Edits.{sets};
ghost use Rattle.recording.specs.{Layout.header_at, Layout.header_size, Form.header_test, FileOf.header_bytes, FileOf.good_header};

use crate::fields;
use crate::step::Step;
use answer::Refusal;

#[derive(Clone, Copy)]
pub struct Header {
    pub version: u16,
    // How many steps follow.
    pub steps: u16,
    // Where the first step begins.
    pub offset: u32,
    // The ticks of all steps together.
    pub total: u32,
    // The length of the whole file.
    pub length: u32,
}

impl Header {
    pub const SIZE: usize = 16;

    pub const VERSION: u16 = 1;

    pub const MOST_STEPS: u16 = 16_000;

    pub fn read(file: &[u8]) -> Header
        requires { header_size ≤ length file.now }
        ensures { result ≡ header_at file.now }
    {
        let version = fields::u16_at(file, 0);
        let steps = fields::u16_at(file, 2);
        let offset = fields::u32_at(file, 4);
        let total = fields::u32_at(file, 8);
        let length = fields::u32_at(file, 12);
        Header {
            version,
            steps,
            offset,
            total,
            length,
        }
    }

    // The header of a recording of so many steps and ticks.
    pub fn of_steps(steps: u16, total: u32) -> Header
        ensures { result ≡ good_header steps total }
    {
        let length = Header::SIZE + Step::SIZE * (steps as usize);
        Header {
            version: Header::VERSION,
            steps,
            offset: Header::SIZE as u32,
            total,
            length: length as u32,
        }
    }

    #[tactic(auto, unfolding(crate::specs::FileOf::header_bytes))]
    pub fn write(self, destination: &mut [u8])
        requires { header_size ≤ length destination.old }
        ensures { destination.new ≡ sets destination.old 0 (header_bytes self) }
    {
        fields::put(destination, 0, self.version.to_le_bytes());
        fields::put(destination, 2, self.steps.to_le_bytes());
        fields::put(destination, 4, self.offset.to_le_bytes());
        fields::put(destination, 8, self.total.to_le_bytes());
        fields::put(destination, 12, self.length.to_le_bytes());
    }

    // Refusals 2 to 5; `size` is the file's true length.
    #[tactic(auto, using(crate::proofs::Tests::tests), unfolding(crate::specs::Form::header_test))]
    pub(crate) fn test(self, size: usize) -> Result<(), Refusal>
        ensures { result ≡ header_test self size }
    {
        if self.version != Header::VERSION {
            return Err(Refusal::WrongVersion);
        }
        if Header::MOST_STEPS < self.steps {
            return Err(Refusal::TooManySteps);
        }
        if self.offset as usize != Header::SIZE {
            return Err(Refusal::WrongOffset);
        }
        let length = Header::SIZE + Step::SIZE * (self.steps as usize);
        if self.length as usize != length || size != length {
            return Err(Refusal::WrongLength);
        }
        Ok(())
    }
}
