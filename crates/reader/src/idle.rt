// Idle ticks: those that only add one to the tick. A loop over a step's ticks passes over them in one move.
#![tactic(auto, unfolding(crate::specs::Idle::ticks_below))]

ghost use Rattle.std.specs.Prelude.{◌+◌, ◌^◌, ◌<◌, ◌≡◌};
ghost use Rattle.reader.specs.Idle.{ticks_below, idle_ticks, later};

use crate::state::State;
use transfer::{Limits, Phase};

// How many of `most` ticks, the first of them `now`, are fewer than `limit` ticks after `since`.
fn ticks_below(limit: u32, since: u32, now: u32, most: u16) -> u16
    ensures { result ≡ ticks_below limit since now most }
{
    let end = (since as u64) + (limit as u64);
    end.saturating_sub(now as u64).min(most as u64) as u16
}

impl State {
    // How many of `most` further ticks are idle, if they show the lines of the tick before them: those that come before the phase's own
    // limit, or all where it has none.
    pub fn idle(self, limits: Limits, most: u16) -> u16
        ensures { result ≡ idle_ticks limits self.phase self.tick most }
    {
        let now = self.tick;
        match self.phase {
            Phase::Start => ticks_below(limits.presence, 0, now, most),
            Phase::ReadyForData(_, since) => ticks_below(limits.end_mark_latest, since, now, most),
            Phase::Acknowledgement(_, since, _) => {
                ticks_below(limits.acknowledge_most, since, now, most)
            }
            Phase::Acknowledged(_, _, ready_tick) => {
                ticks_below(limits.sender_timeout, ready_tick, now, most)
            }
            Phase::SetUp(_, _, _, since, _) => ticks_below(limits.set_up_most, since, now, most),
            Phase::Valid(_, _, _, since, _) => ticks_below(limits.valid_most, since, now, most),
            Phase::Open(_, _, since, _) => ticks_below(limits.take_latest, since, now, most),
            Phase::FirstHold | Phase::Hold(..) | Phase::ReadyToSend(..) | Phase::Carried(..) =>
                most,
            Phase::End(..) | Phase::Finished(..) | Phase::Decided(..) => most,
        }
    }

    // The same, so many ticks later.
    pub fn later(self, ticks: u16) -> State
        requires { self.tick + ticks < 2 ^ 32 }
        ensures { result ≡ later self ticks }
    {
        State {
            tick: self.tick + (ticks as u32),
            ..self
        }
    }
}
