// Document 01, 'Numbers the caller gets': the number of each answer, and the longest input that is looked at.
// They are numbers here alone, since the C interface has them (include/crashlog.h): each crate has an enum of its own refusals.
#![tactic(auto)]

pub mod stops;

pub const DONE: u32 = 0;

pub const TOO_LONG: u32 = 1;

pub const BAD_RULES: u32 = 2;

pub const BAD_HEADER: u32 = 3;

pub const BAD_TYPE: u32 = 4;

pub const EMPTY: u32 = 5;

pub const SPANS_FULL: u32 = 6;

pub const TRIES_SPENT: u32 = 7;

pub const NOT_CPER: u32 = 8;

pub const SECTIONS_FULL: u32 = 9;

pub const OUTPUT_SHORT: u32 = 10;

pub const BAD_FIELD: u32 = 11;

// Document 02, C-11: a piece that is too long, or a table with too little room; a receiver that receives nothing.
pub const BAD_PIECE: u32 = 12;

pub const NOT_RECEIVING: u32 = 13;

// Document 01 has no number for a header that has ended, nor for a section that is not kept.
pub const ENDED: u32 = 254;

pub const NONE: u32 = 255;

// The longest region, and the longest CPER.
pub const MOST_BYTES: usize = 1048576;
