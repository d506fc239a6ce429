// The changes, step by step.
ghost use Rattle.std.specs.Prelude.{◌*◌, ◌≤◌};
ghost use Rattle.recording.specs.{GoodForm.GoodStep, Layout.most_steps, Layout.longest_duration, Ticks.steps_of, Ticks.ticks};
ghost use Rattle.vcd.specs.{Put.Puts, Steps.step_text};
ghost use Rattle.vcd.specs.Dump.{time_text, tick_text, later_text, ticks_text};

use crate::shown;
use crate::window::Window;
use recording::{Recording, Step};

impl Window<'_> {
    // #T, the time of what follows.
    pub(crate) fn put_time(&mut self, tick: u32)
        ensures { Puts (time_text tick) self.old self.new }
    {
        self.put_byte(b'#');
        self.put_decimal(tick);
        self.put_byte(b'\n');
    }

    // A tick after one that showed `before`.
    fn put_tick(&mut self, before: u8, tick: u32, shown: u8)
        ensures { Puts (tick_text before tick shown) self.old self.new }
    {
        if before != shown {
            self.put_time(tick);
            self.put_changes(before, shown);
        }
    }

    // A step that begins at a tick, after one that showed `before`: its first tick, and its second, in which the mark of a longer step is
    // gone.
    fn put_step(&mut self, before: u8, start: u32, step: Step)
        requires { GoodStep step × (start ≤ longest_duration * most_steps) }
        ensures { Puts (step_text before start step) self.old self.new }
    {
        let first = shown::shown_first(step);
        self.put_tick(before, start, first);
        self.put_tick(first, start + 1, shown::shown_last(step));
    }

    // Each step, after a tick that showed `first`. It begins where the one before it ends.
    fn put_each_step(&mut self, recording: Recording<'_>, first: u8)
        ensures { Puts (later_text first 0 (ticks (steps_of recording.entry.file.now))) self.old self.new }
    {
        let mut before = first;
        let mut end: u32 = 0;
        for index in 0..recording.steps {
            let step = recording.step(index);
            let start = end;
            end += step.duration as u32;
            self.put_step(before, start, step);
            before = shown::shown_last(step);
        }
    }

    // All steps. The first tick shows every wire; it is then compared with itself, so that nothing more is put down for it.
    pub(crate) fn put_steps(&mut self, recording: Recording<'_>)
        ensures { Puts (ticks_text (ticks (steps_of recording.entry.file.now))) self.old self.new }
    {
        if recording.steps > 0 {
            let first = shown::shown_first(recording.step(0));
            self.put_time(0);
            self.put_values(first);
            self.put_each_step(recording, first);
        }
    }
}
