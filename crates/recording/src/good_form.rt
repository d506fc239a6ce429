// A recording that is of good form: whoever has one needs no test.
ghost use Rattle.std.specs.Prelude.{Ok, ◌<◌, ◌≡◌};
ghost use Rattle.recording.specs.{Form.form_of, Layout.header_at, Layout.step_at};

use crate::header::Header;
use crate::step::Step;

// Its bytes, and how many steps they hold.
#[derive(Clone, Copy)]
pub struct Recording<'a> {
    pub file: &'a [u8],
    pub steps: usize,
    ghost good: { form_of file.now ≡ Ok steps },
}

impl Recording<'_> {
    // The step of this number.
    pub fn step(self, index: usize) -> Step
        requires { index < self.steps }
        ensures { result ≡ step_at self.entry.file.now index }
    {
        Step::read(self.file, index)
    }

    // How many ticks it has.
    pub fn total(self) -> u32
        ensures { result ≡ (header_at self.entry.file.now).total }
    {
        Header::read(self.file).total
    }
}
