// The numbers answered, as C and the exam have them; in Rattle a refusal is a `Refusal`. specs/Numbers.antt has the same names.

pub const DONE: u32 = 0;

pub const TABLE_LENGTH: u32 = 1;

pub const CORES: u32 = 2;

pub const ROW_RANGE: u32 = 3;

pub const BLOCKED: u32 = 4;

pub const MALFORMED: u32 = 5;

pub const ORDER_FAILS: u32 = 6;

pub const UNSOUND: u32 = 7;

pub const SHORT_OUTPUT: u32 = 8;

pub const BOOK_LENGTH: u32 = 9;

pub const BLOCK_NUMBER: u32 = 10;

pub const BLOCK_CHECK: u32 = 11;

pub const EDITION: u32 = 12;

pub const BOOK_FIELD: u32 = 13;

pub const MEMBER_PASSES: u32 = 14;

pub const UNFINISHED: u32 = 15;

pub const POLICY: u32 = 16;
