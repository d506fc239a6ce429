// The phases of document 01, each with just the numbers that its rows read or hand on.
use answer::Fault;

// A byte with its two ledger ticks: the sender lets go of DATA, the receiver takes it.
#[derive(Clone, Copy)]
pub struct Byte {
    pub value: u8,
    pub let_go: u32,
    pub take: u32,
}

// `since` is the phase's first tick, and in the handover its offset 0, open or carried. `some_handed`: a byte was handed over.
// `end_mark`: the byte has the end mark. It and the value are two numbers and no struct, as the table's clauses name each.
// The order is for speed: the one-byte numbers come first, then `since` or `take`, so that each stands at the same byte in every phase.
#[derive(Clone, Copy)]
pub enum Phase {
    // A
    Start,
    // B, before any byte
    FirstHold,
    // B, after a byte, which is not yet handed over: end_mark, value, take, let_go
    Hold(bool, u8, u32, u32),
    // C: some_handed, ended; `ended`: the byte just handed over had the end mark
    ReadyToSend(bool, bool),
    // D: some_handed, since
    ReadyForData(bool, u32),
    // F: some_handed, since, ready_tick; `ready_tick` is the first tick of D
    Acknowledgement(bool, u32, u32),
    // G: some_handed, since, ready_tick
    Acknowledged(bool, u32, u32),
    // Bits, CLK pulled: end_mark, value, last, since, bits_left; `bits_left` follow this one, `value` holds those before it, and DATA
    // was `last` in the tick before
    SetUp(bool, u8, bool, u32, u32),
    // Bits, CLK released: end_mark, value, bit, since, bits_left
    Valid(bool, u8, bool, u32, u32),
    // Handover, DATA seen released: end_mark, value, since, let_go; `let_go` is the first such tick
    Open(bool, u8, u32, u32),
    // Handover, bit 8 one and DATA pulled without a break: end_mark, value, since
    Carried(bool, u8, u32),
    // E: finish
    End(u32),
    // After the finish of commands: finish
    Finished(u32),
    // A verdict has fallen.
    Decided(Fault),
}
