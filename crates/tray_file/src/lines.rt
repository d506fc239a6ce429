// The lines that are printed. What is printed ends at the first write that fails.
use answer::Refusal;
use files::{print_file, print_name};
use std::io;
use std::io::Print;
use tray::Counts;

// `0 DONE SEAT STATE`
pub fn print_done<P: Print>(to: &P, done: &str, seat: &[u8], state: &[u8]) -> io::Result<()> {
    print!(to; "0 {done} ")?;
    to.write_all(seat)?;
    print_file(to, state)
}

// `NUMBER NAME SEAT STATE`
pub fn print_refusal<P: Print>(
    to: &P,
    refusal: Refusal,
    seat: &[u8],
    state: &[u8],
) -> io::Result<()> {
    let number = refusal.number();
    print!(to; "{number} ")?;
    print_name(to, u32::from(number))?;
    to.print(" ")?;
    to.write_all(seat)?;
    print_file(to, state)
}

// `- FAILURE FILE`; not that of `files`, which begins as an answer does, with four
pub fn print_failure<P: Print>(to: &P, failure: &str, file: &[u8]) -> io::Result<()> {
    print!(to; "- {failure}")?;
    print_file(to, file)
}

// `- not-a-tray LINE STATE`
pub fn print_not_a_tray<P: Print>(to: &P, line: usize, state: &[u8]) -> io::Result<()> {
    print!(to; "- not-a-tray {line}")?;
    print_file(to, state)
}

// `37 passed, 1 failed, 1 unjudged, 1 vacant`
pub fn print_counts<P: Print>(to: &P, counts: Counts) -> io::Result<()> {
    print!(to; "{counts}\n")
}
