// The limits (SPECIFICATION 2.7), each said once in the code. `all` says that they are the definitions'.
#![tactic(auto)]

ghost use Rattle.std.specs.Prelude.{◌≡◌};
ghost use Rattle.limits.specs.Defined.{defined_limits};

pub mod kinds;

// What a node is.
pub const FILE: u8 = 1;

pub const DIRECTORY: u8 = 2;

pub const NODES: usize = 256;

pub const OPEN_FILES: usize = 32;

pub const PAGES: usize = 1024;

pub const PAGE_BYTES: usize = 1024;

pub const DIGEST_BYTES: usize = 32;

pub const FILE_BYTES: usize = 65536;

pub const NAME_BYTES: usize = 32;

pub const PATH_BYTES: usize = 255;

pub const ID_BYTES: usize = 4;

pub const DATA_BYTES: usize = 4096;

pub const DESCRIPTORS: usize = 1024;

pub const MAPS: usize = 16;

pub const MAP_UNIT: usize = 4096;

pub const MAP_BYTES: usize = 65536;

#[derive(Clone, Copy)]
pub struct Limits {
    pub nodes: usize,
    pub opens: usize,
    pub pages: usize,
    pub page: usize,
    pub digest: usize,
    pub file: usize,
    pub name: usize,
    pub path: usize,
    pub id: usize,
    pub transfer: usize,
    pub descriptors: usize,
    pub maps: usize,
    pub unit: usize,
    pub map: usize,
}

pub fn all() -> Limits
    ensures { result ≡ defined_limits }
{
    Limits {
        nodes: NODES,
        opens: OPEN_FILES,
        pages: PAGES,
        page: PAGE_BYTES,
        digest: DIGEST_BYTES,
        file: FILE_BYTES,
        name: NAME_BYTES,
        path: PATH_BYTES,
        id: ID_BYTES,
        transfer: DATA_BYTES,
        descriptors: DESCRIPTORS,
        maps: MAPS,
        unit: MAP_UNIT,
        map: MAP_BYTES,
    }
}
