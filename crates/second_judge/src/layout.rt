// "Recording layout": a header of 16 bytes, then steps of 4 bytes, little-endian.
ghost use Rattle.std.specs.Prelude.{◌≡◌, ◌+◌, ◌*◌, ◌≤◌, ◌<◌, length};
ghost use Rattle.second_judge.specs.Recording.{two_bytes, four_bytes, duration, lines, mark, step_count, total_ticks};

pub const HEADER_BYTES: usize = 16;

pub const STEP_BYTES: u32 = 4;

// "0-1 version, 1; 2-3 step count n, 0 to 16,000; 4-7 offset of the first step, 16".
pub const VERSION: u32 = 1;

pub const MOST_STEPS: u32 = 16000;

pub const OFFSET: u32 = 16;

// #103: "The recorder now marks a step before which ticks were lost: its last byte is 1." The last byte of others is 0.
pub const MARKED: u8 = 1;

// Two readers and not one over the length, which could only give the bytes: each call would then name the number type and its
// `from_le_bytes`.
fn two_bytes(file: &[u8], at: usize) -> u32
    requires { at + 2 ≤ length file.now }
    ensures { (result ≡ two_bytes file.now at) × (result < 65536) }
{
    u16::from_le_bytes([file[at], file[at + 1]]) as u32
}

fn four_bytes(file: &[u8], at: usize) -> u32
    requires { at + 4 ≤ length file.now }
    ensures { result ≡ four_bytes file.now at }
{
    u32::from_le_bytes([file[at], file[at + 1], file[at + 2], file[at + 3]])
}

// "8-11 total ticks, the sum of all durations; 12-15 file length, 16+4n".
#[derive(Drop)]
pub struct Header {
    pub version: u32,
    pub steps: u32,
    pub offset: u32,
    pub total_ticks: u32,
    pub file_length: u32,
}

pub fn header_of(file: &[u8]) -> Header
    requires { 16 ≤ length file.now }
    ensures { (result.steps ≡ step_count file.now) × (result.steps < 65536) × (result.total_ticks ≡ total_ticks file.now) }
{
    Header {
        version: two_bytes(file, 0),
        steps: two_bytes(file, 2),
        offset: four_bytes(file, 4),
        total_ticks: four_bytes(file, 8),
        file_length: four_bytes(file, 12),
    }
}

// "file length, 16+4n": also where the step after the first n ones would begin.
pub fn length_for(steps: u32) -> u32
    requires { steps < 65536 }
    ensures { result ≡ 16 + 4 * steps }
{
    OFFSET + STEP_BYTES * steps
}

// "Each step is 4 bytes: duration 1 to 65,535 in two bytes; lines in one byte", and the last byte, #103's mark.
#[derive(Drop)]
pub struct Step {
    pub duration: u32,
    pub lines: u8,
    pub mark: u8,
}

pub fn step_at(file: &[u8], step: u32) -> Step
    requires { (step < 16000) × (20 + 4 * step ≤ length file.now) }
    ensures { (result.duration ≡ duration file.now step) × (result.duration < 65536)
        × (result.lines ≡ lines file.now step) × (result.mark ≡ mark file.now step) }
{
    let at = length_for(step) as usize;
    Step {
        duration: two_bytes(file, at),
        lines: file[at + 2],
        mark: file[at + 3],
    }
}
