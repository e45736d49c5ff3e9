// Where each of the guard's numbers stands in the memory's header; those behind are spare.
pub const NODES: usize = 0;

pub const OPENS: usize = 1;

// 1 where the guard runs, 0 where it has stopped: a memory of zeros is no running guard
pub const RUNNING: usize = 2;

pub const CALL: usize = 3;

pub const NODE: usize = 4;

pub const OPENED: usize = 5;

pub const PARENT: usize = 6;

pub const KIND: usize = 7;

pub const MODE: usize = 8;

pub const RIGHTS: usize = 9;

pub const POSITION: usize = 10;

pub const COUNT: usize = 11;

pub const SIZE: usize = 12;

pub const PAGE: usize = 13;

pub const BYTES: usize = 14;

pub const DIGESTS: usize = 15;

// how many maps live
pub const MAPS: usize = 16;
