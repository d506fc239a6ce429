// Which rows a tick is tried against.
ghost use Rattle.std.specs.Prelude.{◌≡◌, OnOk};
ghost use Rattle.second_judge.specs.declared.phase.Phase.TheVariants.{End};
ghost use Rattle.second_judge.specs.Phases.{LeadsOrEnds, NeitherPulled, Stands};

use crate::entry::Entry;
use crate::numbers::Verdict;
use crate::phase::{Next, Phase};
use crate::tick::Tick;
use crate::{bits, handover, rows};

// To E a tick leads only with (0,0) and after an end mark, never by the finish, and on in E only with (0,0).
#[tactic(auto, using(crate::proofs::Phases::leads_or_ends, crate::proofs::Phases::leads_or_ends_both, crate::proofs::Phases::ends_both))]
pub fn by_rows(entry: Entry, tick: Tick) -> Result<Next, Verdict>
    requires { Stands entry tick.phase }
    ensures leads { LeadsOrEnds entry tick result }
    ensures at_rest { tick.phase ≡ End → OnOk result (NeitherPulled tick.lines) }
{
    match tick.phase {
        Phase::Start => rows::start(tick),
        Phase::Hold => rows::hold(tick),
        Phase::ReadyToSend => rows::ready_to_send(tick),
        Phase::ReadyForData => rows::ready_for_data(entry, tick),
        Phase::Acknowledgement => rows::acknowledgement(tick),
        Phase::Acknowledged => rows::acknowledged(tick),
        Phase::SetUp => bits::set_up(tick),
        Phase::Valid => bits::valid(tick),
        Phase::Carried => handover::carried(tick),
        Phase::Open => handover::open(tick),
        Phase::End => rows::end(tick),
    }
}
