//! The statuses of a call, as `enum dch_status` of include/dch.h numbers them.

pub const DONE: u8 = 0;

pub const NO_MEMORY: u8 = 1;

pub const BUSY: u8 = 2;

pub const CLOSED: u8 = 3;

pub const OTHER_KIND: u8 = 4;

pub const BAD_CODE: u8 = 5;

pub const BAD_SIZE: u8 = 6;

pub const BAD_LETTER: u8 = 7;

pub const REFUSED: u8 = 8;

pub const SHORT: u8 = 9;

pub const NOT_LOADED: u8 = 10;

pub const BAD_TTI: u8 = 11;

pub const QUEUE_FULL: u8 = 12;

pub const NOTHING: u8 = 13;

pub const NOT_DUE: u8 = 14;
