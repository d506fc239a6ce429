// An answer as a line of text. What is printed ends at the first write that fails.
use answer::Answer;
use std::io;
use std::io::Print;

// Prints `NUMBER TICK STEP COUNT NAME FILE`.
pub fn print_answer<P: Print>(to: &P, answer: Answer, file: &[u8]) -> io::Result<()> {
    print!(to; "{answer}")?;
    print_file(to, file)
}

// Prints the name of the number.
pub fn print_name<P: Print>(to: &P, number: u32) -> io::Result<()> {
    to.print(answer::name_of(number))
}

// Prints `- - - - FAILURE FILE`, the line of a file that has no answer. The failure is any bytes: a text would ask more of callers.
pub fn print_failure<P: Print>(to: &P, failure: &[u8], file: &[u8]) -> io::Result<()> {
    to.print("- - - - ")?;
    to.write_all(failure)?;
    print_file(to, file)
}

// Prints ` FILE` and the line's end. A file's name need be no text.
pub fn print_file<P: Print>(to: &P, file: &[u8]) -> io::Result<()> {
    to.print(" ")?;
    to.write_all(file)?;
    to.print("\n")
}
