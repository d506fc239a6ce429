// The classes of command bytes, and the number and the word of each.
ghost use Rattle.std.specs.Prelude.{◌<◌, length, ◌≡◌};
ghost use Rattle.answer.specs.Names.{name_room};
ghost use Rattle.command.specs.Classes.{class_number};
ghost use Rattle.command.specs.Words.{class_word};

// In document 02's order, each with the number by which it crosses to C and Rust.
#[derive(Clone, Copy)]
pub enum Class {
    Listen = 1,
    Unlisten = 2,
    Talk = 3,
    Untalk = 4,
    Secondary = 5,
    Close = 6,
    Open = 7,
    Other = 0,
}

impl Class {
    // The number by which the class crosses to C and Rust.
    pub fn number(self) -> u32
        ensures { result ≡ class_number self }
    {
        self as u32
    }

    // The word that the programs print for it. Where it crosses to C a zero has room after it.
    pub fn word(self) -> &'static str
        ensures named { result.now ≡ class_word self }
        ensures ended { length result.now < name_room }
    {
        match self {
            Class::Listen => "listen",
            Class::Unlisten => "unlisten",
            Class::Talk => "talk",
            Class::Untalk => "untalk",
            Class::Secondary => "secondary",
            Class::Close => "close",
            Class::Open => "open",
            Class::Other => "other",
        }
    }
}
