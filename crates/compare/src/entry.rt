// Which entry a recording is made for, and which it is handed to: for data or for commands. It travels as a value, and is
// this crate's own, as its methods are: a type of another crate takes none.
use crate::made::draft;

#[derive(Clone, Copy)]
pub(crate) enum Entry {
    Plain,
    Command,
}

impl Entry {
    pub(crate) fn other(self) -> Entry {
        match self {
            Entry::Plain => Entry::Command,
            Entry::Command => Entry::Plain,
        }
    }

    // What its recordings are called.
    pub(crate) fn name(self) -> &'static str {
        match self {
            Entry::Plain => "data",
            Entry::Command => "commands",
        }
    }

    // The line that its transfers have pulled from tick 0 on besides CLK.
    pub(crate) fn attention(self) -> u8 {
        match self {
            Entry::Plain => 0,
            Entry::Command => draft::ATN,
        }
    }
}
