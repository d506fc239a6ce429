// What one tick shows.
use crate::lines::Lines;

// `marked`: the recorder lost ticks before this one.
#[derive(Clone, Copy)]
pub struct Tick {
    pub marked: bool,
    pub lines: Lines,
}
