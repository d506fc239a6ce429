// Recordings that run out: both bases cut after each of their steps, which lasts a tick less than each limit, as long as it
// and a tick more.
use crate::case::Case;
use crate::classes::{Class, limits};
use crate::entry::Entry;
use crate::made::draft;

#[derive(Clone, Copy)]
pub(crate) struct Cuts(pub Entry);

impl Class for Cuts {
    const NAME: &'static str = "cuts";

    const CASES: u32 = 2 * limits::BASE_STEPS * limits::DURATIONS;

    fn entry(&self) -> Entry {
        self.0
    }

    fn put(&self, number: u32, file: &mut [u8]) -> Case {
        let place = number / limits::DURATIONS;
        let step = place % limits::BASE_STEPS;
        limits::put_base(self.0, draft::room_up_to(file, step), place);
        draft::set_duration(file, step, limits::duration_of(number));
        Case::of_file(file)
    }
}
