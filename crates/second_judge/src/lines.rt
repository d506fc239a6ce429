// The lines of a step: "bit 0 ATN, 1 CLK, 2 DATA, 3 SRQ, the rest 0". "SRQ is read and changes no answer."
ghost use Rattle.std.specs.Prelude.{◌≡◌};
ghost use Rattle.second_judge.specs.Phases.{lines_of};

// Above this a step has other line bits.
pub const ALL_FOUR: u8 = 15;

// Which lines are pulled. Document 01's (c,d) are CLK and DATA.
#[derive(Clone, Copy, Default)]
pub struct Lines {
    pub attention: bool,
    pub clock: bool,
    pub data: bool,
}

impl From<u8> for Lines {
    ghost from_gives = { λ shown lines. lines ≡ lines_of shown };

    fn from(shown: u8) -> Lines {
        Lines {
            attention: shown % 2 == 1,
            clock: shown / 2 % 2 == 1,
            data: shown / 4 % 2 == 1,
        }
    }
}
