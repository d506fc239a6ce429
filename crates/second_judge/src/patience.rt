// How long a phase may last while its lines stay as they are: the rows that say "stay; at offset .. it is ..".
ghost use Rattle.std.specs.Prelude.{◌<◌, IfSome};
ghost use Rattle.second_judge.specs.Numbers.{Gives, while_reading};
ghost use Rattle.second_judge.specs.Phases.{Stands};

use crate::entry::Entry;
use crate::limits;
use crate::numbers::Verdict;
use crate::phase::Phase;
use crate::place::Place;

// The offset at which staying is a verdict, and that verdict.
#[derive(Clone, Copy)]
struct Limit {
    offset: u32,
    verdict: Verdict,
}

// A verdict, and the tick at which it falls.
#[derive(Clone, Copy)]
pub struct Fallen {
    pub verdict: Verdict,
    pub tick: u32,
}

// The verdict that falls in a step, from its first tick on and before the tick `end`, at which it is over. The place is
// the one after the first tick. A limit's tick may lie after the recording's last, where a number of four bytes ends.
pub fn found_in(entry: Entry, place: Place, count: u32, end: u32) -> Option<Fallen>
    requires { Stands entry place.phase }
    ensures { IfSome result (λ fallen. Gives (while_reading entry) fallen.verdict × (fallen.tick < end)) }
{
    let limit = limit_of(entry, place.phase, count)?;
    let tick = counted_from(place).checked_add(limit.offset)?;
    (tick < end).then_some(Fallen {
        verdict: limit.verdict,
        tick,
    })
}

// G's limit counts from D's first tick, every other from the phase's own offset 0.
fn counted_from(place: Place) -> u32 {
    match place.phase {
        Phase::Acknowledged => place.ready_for_data,
        _ => place.since,
    }
}

// G: "it is 21 if no byte was handed over, otherwise 31". B, C, carried and E have no limit.
fn limit_of(entry: Entry, phase: Phase, count: u32) -> Option<Limit>
    requires { Stands entry phase }
    ensures { IfSome result (λ limit. Gives (while_reading entry) limit.verdict) }
{
    let (offset, verdict) = match phase {
        Phase::Start => (limits::NO_RECEIVER_AT, Verdict::NoReceiver),
        Phase::ReadyForData => return Some(silence(entry)),
        Phase::Acknowledgement => (
            limits::ACKNOWLEDGEMENT_LONG_AT,
            Verdict::AcknowledgementLong,
        ),
        Phase::Acknowledged if count == 0 => (limits::SENDER_TIME_OUT, Verdict::EmptyStream),
        Phase::Acknowledged => (limits::SENDER_TIME_OUT, Verdict::SenderTimeOut),
        Phase::SetUp => (limits::SET_UP_MOST, Verdict::ClockStall),
        Phase::Valid => (limits::VALID_MOST, Verdict::ClockStall),
        Phase::Open => (limits::RECEIVER_TIME_OUT, Verdict::ReceiverTimeOut),
        Phase::Hold | Phase::ReadyToSend | Phase::Carried | Phase::End => return None,
    };
    Some(Limit { offset, verdict })
}

// D: "(0,0): stay; at offset 290 it is 27"; in a command recording "(0,0) at offset 199 gives 38".
fn silence(entry: Entry) -> Limit
    ensures { Gives (while_reading entry) result.verdict }
{
    match entry {
        Entry::Plain => Limit {
            offset: limits::END_MARK_NOT_ACKNOWLEDGED_AT,
            verdict: Verdict::EndMarkNotAcknowledged,
        },
        Entry::Command => Limit {
            offset: limits::END_MARK_UNDER_ATTENTION_AT,
            verdict: Verdict::EndMarkUnderAttention,
        },
    }
}
