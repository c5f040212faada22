// The alarms' numbers, once. (01: "Alarms and their order". 02 takes 8 out, and "its number is not used again".) Every crate names an alarm by these names,
// and every definition by those of specs/Numbers.antt.
#![tactic(auto)]

pub const BAD_SETTINGS: u8 = 1;

pub const TAPE_TOO_LONG: u8 = 2;

pub const BUFFER_TOO_SHORT: u8 = 3;

pub const NO_PROGRAM: u8 = 4;

pub const BAD_BYTE_OR_NUMBER: u8 = 5;

pub const BAD_LINE_START: u8 = 6;

pub const LINE_TOO_LONG: u8 = 7;

pub const WORD_RULES: u8 = 9;

pub const PROGRAM_MISSING: u8 = 10;

pub const BLOCK_MISSING: u8 = 11;

pub const TOO_DEEP: u8 = 12;

pub const TOO_MANY_BEGUN: u8 = 13;

pub const WRONG_END: u8 = 14;

pub const NO_MOTION: u8 = 15;

pub const NOT_RAPID: u8 = 16;

pub const BAD_FEED: u8 = 17;

pub const OUTSIDE_LIMITS: u8 = 18;

pub const BAD_LENGTHS: u8 = 19;

pub const NO_ROOM: u8 = 20;

pub const MISSING_POINT: u8 = 21;

pub const PLACES_TOO_SHORT: u8 = 22;
