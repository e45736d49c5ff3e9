// What is pending: the number under `header::CALL`, one for each constructor of the definition.
pub const IDLE: u64 = 0;

pub const CREATING: u64 = 1;

pub const OPENING: u64 = 2;

pub const CLOSING: u64 = 3;

pub const REMOVING: u64 = 4;

pub const CHANGING: u64 = 5;

pub const LISTING: u64 = 6;

pub const STATING: u64 = 7;

pub const READING: u64 = 8;

// of a write: a page is fetched; a page is stored
pub const FETCHING: u64 = 9;

pub const STORING: u64 = 10;

// of a truncation to fewer bytes: its page is fetched; its page is stored; the file is cut
pub const SHRINK_FETCHING: u64 = 11;

pub const SHRINK_STORING: u64 = 12;

pub const CUTTING: u64 = 13;

// of a truncation to more bytes: the file is cut
pub const GROWING: u64 = 14;

// a map is asked for; a map is to end
pub const MAPPING: u64 = 15;

pub const UNMAPPING: u64 = 16;

pub const RENAMING: u64 = 17;

pub const LAST: u64 = RENAMING;
