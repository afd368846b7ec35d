// The number of each reason for which a region stops, and so of each ending of its records (document 02, C-12).
// With UNTOLD no reason is told.
pub const UNTOLD: u32 = 0;

pub const END_OF_INPUT: u32 = 1;

pub const ZERO_WORD: u32 = 2;

pub const DEADBEEF_WORD: u32 = 3;

pub const FEW_BYTES: u32 = 4;

pub const BAD_HEADER: u32 = 5;

pub const SIZE_ZERO: u32 = 6;
