//! The codes that calls return.

pub const OK: i32 = 0;

pub const MEMORY: i32 = 1;

pub const BOUNDS: i32 = 2;

pub const ATTRIBUTES: i32 = 3;

pub const NO_TEXT: i32 = 4;

pub const NO_READER: i32 = 5;

pub const LOST: i32 = 6;

pub const FULL: i32 = 7;

pub const COMMITS_SPENT: i32 = 8;

pub const OPERATIONS_SPENT: i32 = 9;

pub const NO_DOCUMENT: i32 = 10;

pub const SYNTAX: i32 = 11;

pub const NO_FIELD: i32 = 12;

pub const WRONG_TYPE: i32 = 13;

pub const OUT_OF_RANGE: i32 = 14;

pub const TOO_DEEP: i32 = 15;

pub const NOT_JSON: i32 = 21;

pub const NO_OPERATION: i32 = 22;

pub const BAD_ID: i32 = 23;

pub const BAD_VALUE: i32 = 24;

pub const UNSUPPORTED: i32 = 25;

pub const TOO_MANY_ITEMS: i32 = 26;

pub const LINE_TOO_LONG: i32 = 27;

pub const BAD_SAVE: i32 = 31;

pub const OTHER_SAVE: i32 = 32;
