// The two judges compared, on generated recordings. The last line that is printed must say that there is no difference.
#![tactic(auto)]

mod case;
mod classes;
mod compared;
mod entry;
mod made;
mod output;
mod tally;

use std::io;

// Longer than the longest recording that is made.
const ROOM: usize = 64_000;

fn main(rt: HostRuntime) -> io::Result<()> {
    let mut out = rt.stdout();
    let mut file = [0u8; ROOM];
    let tally = classes::compare_classes(&mut out, &mut file)?;
    output::print_tally(&mut out, &tally)
}
