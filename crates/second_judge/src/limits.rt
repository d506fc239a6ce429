// "Each house time has one name, used wherever the time is meant." Ticks of 1 microsecond; H marks house limits.

// A: "(1,0): stay; at offset 256 it is 24 instead".
pub const NO_RECEIVER_AT: u32 = 256;

// B: "only 100 or more ticks after its take".
pub const HOLD_AFTER_TAKE: u32 = 100;

// D: "CLK pulled at offset 1 to 199" goes before the end mark's window, "(0,1) at 200 to 290" lies in it.
pub const END_MARK_FROM: u32 = 200;

// D: "(0,0): stay; at offset 290 it is 27" (H).
pub const END_MARK_NOT_ACKNOWLEDGED_AT: u32 = 290;

// D in a command recording (#101): "(0,0) at offset 199 gives 38", the last tick before the end mark's window.
pub const END_MARK_UNDER_ATTENTION_AT: u32 = END_MARK_FROM - 1;

// F: "(0,0): before offset 60 it is 28".
pub const ACKNOWLEDGEMENT_FROM: u32 = 60;

// F: "(0,1): stay; at offset 150 (H) it is 29".
pub const ACKNOWLEDGEMENT_LONG_AT: u32 = 150;

// G: "CLK pulled: at offset up to 60 bits (003), later 30".
pub const CLOCK_UP_TO: u32 = 60;

// G: "at 512 ticks after D's first tick (000)".
pub const SENDER_TIME_OUT: u32 = 512;

// Set-up: "CLK pulled for 1 to 200 ticks (H); a 201st is 34".
pub const SET_UP_MOST: u32 = 200;

// Valid: "A 201st valid tick (H): 34".
pub const VALID_MOST: u32 = 200;

// Valid: "CLK pulled after fewer than 20 valid ticks (003): 32".
pub const VALID_LEAST: u32 = 20;

// Handover, open: "(1,0) stays; at offset 1,000 it is 35".
pub const RECEIVER_TIME_OUT: u32 = 1000;

// Handover, carried: "(1,0) at offset up to 100 (H): open from here".
pub const CARRIED_UP_TO: u32 = 100;

// Handover, carried: "take and letting go both at offset 1".
pub const CARRIED_TAKE: u32 = 1;

// "Bits, eight".
pub const BITS: u32 = 8;
