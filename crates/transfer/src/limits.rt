// What a transfer is judged by: which entry it was handed to, and the times of document 01, in ticks of 1 µs. Each time has one name, used
// wherever it is meant. H marks a house limit, 000 and 003 the source that gives the others.
ghost use Rattle.std.specs.Prelude.{◌≡◌};
ghost use Rattle.transfer.specs.Limits.{standard_limits, command_limits};

// A data transfer has ATN released throughout, commands have it pulled until their finish.
#[derive(Clone, Copy)]
pub enum Entry {
    Plain,
    Command,
}

#[derive(Clone, Copy)]
pub struct Limits {
    pub entry: Entry,
    pub presence: u32,
    pub between_bytes: u32,
    pub end_mark: u32,
    pub end_mark_latest: u32,
    pub acknowledge_least: u32,
    pub acknowledge_most: u32,
    pub response: u32,
    pub sender_timeout: u32,
    pub set_up_most: u32,
    pub valid_least: u32,
    pub valid_most: u32,
    pub keep_most: u32,
    pub take_latest: u32,
}

impl Limits {
    // The last tick at which a receiver may first take DATA (000).
    pub const PRESENCE: u32 = 256;
    // The least time from a take to the next release of CLK (000).
    pub const BETWEEN_BYTES: u32 = 100;
    // A gap this long after the letting go means an end mark; a CLK pull before it means none (003).
    pub const END_MARK: u32 = 200;
    // The latest start of the acknowledgement after the letting go (H).
    pub const END_MARK_LATEST: u32 = 290;
    // The shortest acknowledgement (003).
    pub const ACKNOWLEDGE_LEAST: u32 = 60;
    // The longest acknowledgement (H).
    pub const ACKNOWLEDGE_MOST: u32 = 150;
    // The latest CLK pull after the acknowledgement (003).
    pub const RESPONSE: u32 = 60;
    // No CLK pull this long after the letting go is an empty stream or a sender time-out (000).
    pub const SENDER_TIMEOUT: u32 = 512;
    // The most ticks of a set-up (H).
    pub const SET_UP_MOST: u32 = 200;
    // The fewest valid ticks of a bit (003).
    pub const VALID_LEAST: u32 = 20;
    // The most valid ticks of a bit (H).
    pub const VALID_MOST: u32 = 200;
    // The last offset after bit 8 at which the sender may let go of DATA (H).
    pub const KEEP_MOST: u32 = 100;
    // The last offset after bit 8 at which the receiver may take DATA (000).
    pub const TAKE_LATEST: u32 = 1000;

    // Document 01's own times, for a data transfer.
    pub fn standard() -> Limits
        ensures { result ≡ standard_limits }
    {
        Limits {
            entry: Entry::Plain,
            presence: Limits::PRESENCE,
            between_bytes: Limits::BETWEEN_BYTES,
            end_mark: Limits::END_MARK,
            end_mark_latest: Limits::END_MARK_LATEST,
            acknowledge_least: Limits::ACKNOWLEDGE_LEAST,
            acknowledge_most: Limits::ACKNOWLEDGE_MOST,
            response: Limits::RESPONSE,
            sender_timeout: Limits::SENDER_TIMEOUT,
            set_up_most: Limits::SET_UP_MOST,
            valid_least: Limits::VALID_LEAST,
            valid_most: Limits::VALID_MOST,
            keep_most: Limits::KEEP_MOST,
            take_latest: Limits::TAKE_LATEST,
        }
    }

    // The same times for commands. They have no end mark: D lasts no longer than a byte may begin.
    pub fn command() -> Limits
        ensures { result ≡ command_limits }
    {
        let standard = Limits::standard();
        Limits {
            entry: Entry::Command,
            end_mark_latest: standard.end_mark - 1,
            ..standard
        }
    }
}
