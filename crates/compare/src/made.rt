// Recordings made for the comparison: step after step, and by the pieces of a transfer.
pub(crate) mod draft;
pub(crate) mod manner;
pub(crate) mod pieces;
pub(crate) mod random;
pub(crate) mod transfers;
