// The classes of cases. Each is a file of its own; a further class is a further file, and a line in `compare_classes` or, if
// there are recordings of either entry, in `compare_made`.
mod attention;
mod crossed;
mod cuts;
mod handovers;
mod limits;
mod marks;
mod pairs;
mod refusals;
mod samples;
mod strings;
mod values;

use crate::case::Case;
use crate::compared::Comparison;
use crate::entry::Entry;
use crate::tally::Tally;
use std::io;
use std::io::Write;

pub(crate) trait Class {
    const NAME: &'static str;

    // How many cases it has.
    const CASES: u32;

    // The entry that its recordings are handed to.
    fn entry(&self) -> Entry;

    // Makes the recording of the case with this number in a file that has begun.
    fn put(&self, number: u32, file: &mut [u8]) -> Case;
}

// In the order in which they are printed: the written ones, then those of data, and then those of commands.
pub(crate) fn compare_classes<W: Write>(out: &mut W, file: &mut [u8]) -> io::Result<Tally> {
    let mut comparison = Comparison {
        out,
        tally: Tally::NONE,
    };
    comparison.compare_class(file, &samples::Samples)?;
    comparison.compare_class(file, &values::Values)?;
    comparison.compare_class(file, &strings::Strings)?;
    compare_made(&mut comparison, file, Entry::Plain)?;
    compare_made(&mut comparison, file, Entry::Command)?;
    Ok(comparison.tally)
}

// The classes of recordings made for either entry.
fn compare_made<W: Write>(
    comparison: &mut Comparison<W>,
    file: &mut [u8],
    entry: Entry,
) -> io::Result<()> {
    comparison.compare_class(file, &limits::Limits(entry))?;
    comparison.compare_class(file, &cuts::Cuts(entry))?;
    comparison.compare_class(file, &handovers::Handovers(entry))?;
    comparison.compare_class(file, &pairs::Pairs(entry))?;
    comparison.compare_class(file, &refusals::Refusals(entry))?;
    comparison.compare_class(file, &attention::Attention(entry))?;
    comparison.compare_class(file, &marks::Marks(entry))?;
    comparison.compare_class(file, &crossed::Crossed(entry))
}
