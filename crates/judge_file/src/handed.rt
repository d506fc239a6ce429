// The bytes that were handed over, their ledger ticks and, of commands, their classes, as text.
use std::io;
use std::io::Print;
use transfer::Entry;

// A line of the bytes, one of their ticks and, of commands, one of their classes, or nothing where no byte was handed over.
pub fn print_handed<P: Print>(
    to: &P,
    entry: Entry,
    bytes: &[u8],
    ledger: &[u32],
) -> io::Result<()> {
    if bytes.is_empty() {
        return Ok(());
    }
    print_line(to, "bytes", bytes, |byte| print!(to; " {byte:02x}"))?;
    print_line(to, "ledger", ledger, |tick| print!(to; " {tick}"))?;
    match entry {
        Entry::Plain => Ok(()),
        Entry::Command => print_line(to, "classes", bytes, |byte| print_class(to, *byte)),
    }
}

fn print_line<P: Print, T, F: Fn(&T) -> io::Result<()>>(
    to: &P,
    heading: &str,
    values: &[T],
    print_value: F,
) -> io::Result<()>
    requires { F.IsAlwaysCallable print_value }
{
    to.print(heading)?;
    for value in values {
        print_value(value)?;
    }
    to.print("\n")
}

// In a word.
fn print_class<P: Print>(to: &P, byte: u8) -> io::Result<()> {
    print!(to; " {}", command::class_of(byte).word())
}
