// How ticks are put down: in the writer's times and one step, or drawn.
ghost use Rattle.std.specs.Prelude.{◌≤◌};

use crate::made::draft;
use crate::made::random::Random;

#[derive(Clone, Copy)]
pub(crate) struct Manner {
    // Where something is drawn, what draws it.
    pub random: Option<Random>,
    // Line bits that each step has besides its own.
    pub more: u8,
    // Line bits that are free, and drawn where something is: SRQ, and after the finish of commands CLK and DATA too.
    pub free: u8,
    // From this tick on ATN is turned round, if there is one.
    pub turn: Option<u32>,
}

impl Manner {
    pub(crate) const PLAIN: Manner = Manner {
        random: None,
        more: 0,
        free: draft::SRQ,
        turn: None,
    };

    pub(crate) fn next(self) -> Manner {
        Manner {
            random: self.random.map(Random::next),
            ..self
        }
    }

    // A number below `end`; 0 if there is none, or nothing is drawn.
    pub(crate) fn below(self, end: u32) -> u32
        ensures { result ≤ end }
    {
        self.random.map_or(0, |random| random.below(end))
    }

    // After how many of some ticks, the first of them being `begin`, a further step begins: at the turn of ATN if it is
    // among them, otherwise where it is drawn.
    pub(crate) fn step_end(self, begin: u32, ticks: u32) -> u32
        ensures { result ≤ ticks }
    {
        match self.turn.and_then(|turn| turn.checked_sub(begin)) {
            Some(before) if before < ticks => before,
            _ => self.below(ticks),
        }
    }

    // What a step shows that begins at this tick: its lines with those that every step has, and the free ones drawn.
    pub(crate) fn lines(self, begin: u32, lines: u8) -> u8 {
        let drawn = self
            .random
            .map_or(0, |random| (random.state / 4 % 16) as u8);
        let shown = (lines | self.more) ^ (drawn & self.free);
        match self.turn {
            Some(turn) if turn <= begin => shown ^ draft::ATN,
            _ => shown,
        }
    }
}
