// The rows of the phases but bits and handover, each for one tick of which ATN decides nothing, in document 01's order.
// The limits on staying are not here but in patience.
ghost use Rattle.std.specs.Prelude.{OnOk};
ghost use Rattle.second_judge.specs.Phases.{Leads, LeadsBoth, LeadsOrEnds, NeitherPulled};

use crate::entry::Entry;
use crate::limits;
use crate::numbers::Verdict;
use crate::phase::{Next, Phase};
use crate::tick::Tick;

// A: "Tick 0 with CLK released: 25. CLK released later: 26. (1,1): go to B. (1,0): stay". Tick 0 is A's offset 0.
// A choice: at offset 256 too, CLK released is 26 and (1,1) goes to B; only (1,0) is 24 there.
pub fn start(tick: Tick) -> Result<Next, Verdict>
    ensures { LeadsBoth result }
{
    match (tick.lines.clock, tick.lines.data) {
        (false, _) if tick.offset == 0 => Err(Verdict::BadStart),
        (false, _) => Err(Verdict::OutOfTurn),
        (true, true) => Ok(Next::Go(Phase::Hold)),
        (true, false) => Ok(Next::Stay),
    }
}

// B: "(1,1): stay. (0,1): go to C; after a byte, only 100 or more ticks after its take (000), otherwise 36. DATA
// released: 26." After a byte the hold's offset 0 is the take; before the first one nothing is asked of the hold.
// A choice: DATA released is 26 with CLK pulled or released, and at every offset.
pub fn hold(tick: Tick) -> Result<Next, Verdict>
    ensures { LeadsBoth result }
{
    match (tick.lines.clock, tick.lines.data) {
        (true, true) => Ok(Next::Stay),
        (false, true) if tick.bits < limits::BITS => Ok(Next::Go(Phase::ReadyToSend)),
        (false, true) if tick.offset < limits::HOLD_AFTER_TAKE => Err(Verdict::Hurried),
        (false, true) => Ok(Next::HandOver),
        (_, false) => Err(Verdict::OutOfTurn),
    }
}

// C: "(0,1): stay, no limit (003). (0,0): go to D, or to the end E if the byte just handed over had the end mark. CLK
// pulled: 26." Before the first byte no byte has the end mark.
pub fn ready_to_send(tick: Tick) -> Result<Next, Verdict>
    ensures { (entry : Entry) → LeadsOrEnds entry tick result }
{
    match (tick.lines.clock, tick.lines.data) {
        (false, true) => Ok(Next::Stay),
        (false, false) if tick.end_mark => Ok(Next::Go(Phase::End)),
        (false, false) => Ok(Next::Go(Phase::ReadyForData)),
        (true, _) => Err(Verdict::OutOfTurn),
    }
}

// D: "CLK pulled at offset 1 to 199: bits, no end mark. CLK pulled later: 26. (0,1) before offset 200: 26.
// (0,1) at 200 to 290 (H above 200): go to F, end mark. (0,0): stay".
pub fn ready_for_data(entry: Entry, tick: Tick) -> Result<Next, Verdict>
    ensures { Leads entry result }
{
    match (tick.lines.clock, tick.lines.data) {
        (true, _) if tick.offset < limits::END_MARK_FROM => Ok(Next::Go(Phase::SetUp)),
        (true, _) => Err(Verdict::OutOfTurn),
        (false, true) => end_mark(entry, tick),
        (false, false) => Ok(Next::Stay),
    }
}

// D's (0,1). #101 goes "without .. end mark", and in a command recording D never lasts to offset 200.
// A choice: offset 290 showing (0,1) still goes to F, since its row comes before that of 27, which is for (0,0). In a
// command recording offset 199 is 26 with (0,1) and goes to bits with CLK pulled; 38 is for (0,0).
fn end_mark(entry: Entry, tick: Tick) -> Result<Next, Verdict>
    ensures { Leads entry result }
{
    match entry {
        Entry::Plain if limits::END_MARK_FROM <= tick.offset => Ok(Next::Go(
            Phase::Acknowledgement,
        )),
        Entry::Plain | Entry::Command => Err(Verdict::OutOfTurn),
    }
}

// F: "CLK pulled: 26. (0,1): stay. (0,0): before offset 60 it is 28, otherwise go to G."
// A choice: offset 150 showing (0,0) goes to G; 29 is for (0,1).
pub fn acknowledgement(tick: Tick) -> Result<Next, Verdict>
    ensures { Leads Entry.Plain result }
{
    match (tick.lines.clock, tick.lines.data) {
        (true, _) => Err(Verdict::OutOfTurn),
        (false, true) => Ok(Next::Stay),
        (false, false) if tick.offset < limits::ACKNOWLEDGEMENT_FROM => Err(
            Verdict::AcknowledgementShort,
        ),
        (false, false) => Ok(Next::Go(Phase::Acknowledged)),
    }
}

// G: "(0,1): 26. CLK pulled: at offset up to 60 bits (003), later 30. (0,0): stay".
// A choice: CLK pulled 512 ticks after D's first tick is 30, its row standing before that of the time-out.
pub fn acknowledged(tick: Tick) -> Result<Next, Verdict>
    ensures { Leads Entry.Plain result }
{
    match (tick.lines.clock, tick.lines.data) {
        (false, true) => Err(Verdict::OutOfTurn),
        (true, _) if tick.offset <= limits::CLOCK_UP_TO => Ok(Next::Go(Phase::SetUp)),
        (true, _) => Err(Verdict::LateClock),
        (false, false) => Ok(Next::Stay),
    }
}

// E: "Any tick other than (0,0): 37."
pub fn end(tick: Tick) -> Result<Next, Verdict>
    ensures leads { LeadsBoth result }
    ensures at_rest { OnOk result (NeitherPulled tick.lines) }
{
    match (tick.lines.clock, tick.lines.data) {
        (false, false) => Ok(Next::Stay),
        (_, _) => Err(Verdict::MovedAfterTheEnd),
    }
}
