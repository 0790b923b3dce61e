//! What C is answered, as `zq.h` names it.

/// Done.
pub const OK: u32 = 0;
/// The line is none of its kind, or the head has a bad line; nothing changed.
pub const BAD_LINE: u32 = 1;
/// No memory was found; nothing changed.
pub const NO_MEMORY: u32 = 2;
/// The line was done, and no memory was found for its print: it can be asked for again.
pub const UNPRINTED: u32 = 3;
/// The line was done, and its print is longer than the room for it: it can be asked for again.
pub const SHORT: u32 = 4;
/// The handle has nothing.
pub const CLOSED: u32 = 5;
/// The handle has something already.
pub const IN_USE: u32 = 6;
/// Nothing is waited for.
pub const NOTHING: u32 = 7;
/// A text is no key.
pub const BAD_KEY: u32 = 8;
/// No memory was found amid a line of a bus: it joins and gets no more.
pub const SPENT: u32 = 9;
/// The configuration of a bus lacks Local.
pub const NO_LOCAL: u32 = 10;
/// No number is left for a face of a bus.
pub const NO_FREE_ID: u32 = 11;
