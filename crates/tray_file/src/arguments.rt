// The places of the arguments, after the call's word.
pub const STATE: usize = 2;

pub const PLACE: usize = 3;

pub const SEAT: usize = 4;

pub const RECORDING: usize = 5;

pub const EXPECTED: usize = 6;
