// Which of the two entries is asked. It travels as a value, so that the rows that both share stand once; and it is this crate's own, since
// the second judge shares nothing with the first.

#[derive(Clone, Copy)]
pub enum Entry {
    // Document 01's: "One data transfer: one sender, one receiver, ATN released throughout."
    Plain,
    // Document 02's #101: "A command recording has ATN pulled at every tick until the finish."
    Command,
}
