// The entry: a part of a recording's dump, put down in a lent destination.
ghost use Rattle.std.specs.Prelude.{◌≡◌};
ghost use Rattle.answer.specs.Answers.{answered};
ghost use Rattle.recording.specs.Ticks.{steps_of};
ghost use Rattle.vcd.specs.{Dump.dump, Dumped.leaves, Dumped.dumped, Put.Puts};

use crate::window::Window;
use answer::Refused;
use recording::Recording;

// Puts the dump's text down from byte `offset` on, as much as the destination has room for. Promised: the answer and the destination,
// whole, are what `dumped` gives. Asked with offset 0, and then with the offset raised by each count until that is 0, it gives all of it.
pub fn part(file: &[u8], offset: u32, destination: &mut [u8]) -> Result<u32, Refused>
    ensures { leaves (answered result) destination.new ≡ dumped file.now offset destination.old }
{
    let recording = recording::check_form(file)?;
    let mut window = Window::at(destination, offset);
    window.put_dump(recording);
    Ok(window.count as u32)
}

impl Window<'_> {
    // The declarations, the changes, and the time at which the recording ends: its total, by its header.
    fn put_dump(&mut self, recording: Recording<'_>)
        ensures { Puts (dump (steps_of recording.entry.file.now)) self.old self.new }
    {
        self.put_heading();
        self.put_steps(recording);
        self.put_time(recording.total());
    }
}
