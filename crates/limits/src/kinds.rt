// The first byte of a call and of a host request (SPECIFICATION 4, 5.1).
pub const CREATE: u8 = 1;

pub const MKDIR: u8 = 2;

pub const OPEN: u8 = 3;

pub const CLOSE: u8 = 4;

pub const SEEK: u8 = 5;

// of a request: a page is fetched
pub const READ: u8 = 6;

// of a request: a page is stored
pub const WRITE: u8 = 7;

// of a request: a file is cut
pub const TRUNCATE: u8 = 8;

pub const REMOVE: u8 = 9;

pub const RMDIR: u8 = 10;

pub const CHMOD: u8 = 11;

pub const READDIR: u8 = 12;

pub const STAT: u8 = 13;

pub const MAP: u8 = 14;

pub const UNMAP: u8 = 15;

pub const RENAME: u8 = 16;
