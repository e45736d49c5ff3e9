// The guard's memory: one slice that the caller lends holds all of it. Only this crate knows where a table stands
// (specs/Layout.antt) and where a field stands in its row (specs/Records.antt). Contracts are over the view `mem_of`.
#![tactic(auto)]

ghost use Rattle.std.specs.Prelude.{[], ◌≡◌, ◌+◌, ◌*◌, ◌%◌, ◌<◌, ◌≤◌, length, get_or, take, set};
ghost use Rattle.lists.specs.Form.{put_all};
ghost use Rattle.lists.specs.Formats.{bytes};
ghost use Rattle.lists.specs.Parts.{part, overwrite};
ghost use Rattle.lists.specs.Rows.{rows};
ghost use Rattle.numbers.specs.Slices.{Overwritten};
ghost use Rattle.filesystem.specs.Tables.{NODES, PAGES, NAME_BYTES, DIGEST_BYTES, node_at, open_at, is_child, new_node};
ghost use Rattle.filesystem.specs.Tables.{new_open_file, with_size, with_cursor, set_mode, set_size, set_cursor};
ghost use Rattle.memory.specs.Layout.{memory_size, head_numbers, opens_at, open_rows, digest_width, data_size};
ghost use Rattle.memory.specs.Layout.{new_digests, staging_size, with_head, with_nodes, with_opens, with_digests};
ghost use Rattle.filesystem.specs.MemoryMaps.{MAPS, map_at};
ghost use Rattle.memory.specs.Layout.{with_staged, with_maps};
ghost use Rattle.memory.specs.Memories.{Becomes, IsMemory, was};
ghost use Rattle.memory.specs.Records.{node_of, open_of, open_width, hint_at, map_of};

// The length that the slice needs; `least_length` says that contracts mean the same by `memory_size`.
pub const SIZE: usize = MAPS_AT + limits::MAPS * MAP_WIDTH;

// The header's numbers, 8 bytes each; more than are in use, so that a later table moves nothing.
pub const HEAD_NUMBERS: usize = 32;

// Rows for open files: more than the limit, so that a later limit moves nothing.
pub const OPEN_ROWS: usize = 40;

// Room for the digests of the pages that one call changes.
pub const NEW_DIGESTS: usize = 8;

pub const NODE_WIDTH: usize = 56;

pub const OPEN_WIDTH: usize = 24;

pub const MAP_WIDTH: usize = 12;

const DIGEST_WIDTH: usize = limits::DIGEST_BYTES;

const DATA_SIZE: usize = limits::DATA_BYTES;

const NODES_AT: usize = HEAD_NUMBERS * 8;

const OPENS_AT: usize = NODES_AT + limits::NODES * NODE_WIDTH;

const DIGESTS_AT: usize = OPENS_AT + OPEN_ROWS * OPEN_WIDTH;

const STAGING_AT: usize = DIGESTS_AT + limits::PAGES * DIGEST_WIDTH;

const MAPS_AT: usize = STAGING_AT + DATA_SIZE + NEW_DIGESTS * DIGEST_WIDTH;

pub fn least_length() -> usize
    ensures { result ≡ memory_size }
{
    SIZE
}

// n rows of a table, whatever they hold, moved within it.
fn move_rows(m: &mut [u8], table: usize, width: usize, from: usize, to: usize, n: usize)
    requires { (table + from * width + n * width ≤ length m.old) × (table + to * width + n * width ≤ length m.old) }
    ensures { Overwritten m (table + to * width) (part (table + from * width) (n * width) m.old) }
{
    buffers::shift(m, table + from * width, table + to * width, n * width);
}

// ---- the header

// Number k of the header.
pub fn head(m: &[u8], k: usize) -> u64
    requires { (k < head_numbers) × IsMemory m.now }
    ensures { result ≡ get_or (was m.now).head k 0 }
{
    numbers::u64_at(m, k * 8)
}

pub fn put_head(m: &mut [u8], k: usize, x: u64)
    requires { (k < head_numbers) × IsMemory m.old }
    ensures { Becomes m (with_head (set (was m.old).head k x)) }
{
    let b = numbers::bytes8(x);
    buffers::put(m, k * 8, &b);
}

// ---- nodes

pub fn node_id(m: &[u8], i: usize) -> u64
    requires { (i < NODES) × IsMemory m.now }
    ensures { result ≡ (node_at (was m.now).nodes i).id }
{
    numbers::u64_at(m, NODES_AT + i * NODE_WIDTH)
}

pub fn node_parent(m: &[u8], i: usize) -> u64
    requires { (i < NODES) × IsMemory m.now }
    ensures { result ≡ (node_at (was m.now).nodes i).parent }
{
    numbers::u64_at(m, NODES_AT + i * NODE_WIDTH + 8)
}

pub fn node_kind(m: &[u8], i: usize) -> u8
    requires { (i < NODES) × IsMemory m.now }
    ensures { result ≡ (node_at (was m.now).nodes i).kind }
{
    m[NODES_AT + i * NODE_WIDTH + 16]
}

pub fn node_mode(m: &[u8], i: usize) -> u8
    requires { (i < NODES) × IsMemory m.now }
    ensures { result ≡ (node_at (was m.now).nodes i).mode }
{
    m[NODES_AT + i * NODE_WIDTH + 17]
}

pub fn node_size(m: &[u8], i: usize) -> u32
    requires { (i < NODES) × IsMemory m.now }
    ensures { result ≡ (node_at (was m.now).nodes i).size }
{
    numbers::u32_at(m, NODES_AT + i * NODE_WIDTH + 18)
}

// A length byte as a length: within a name's limit, whatever the byte holds.
fn name_length(b: u8) -> usize
    ensures { result ≡ b % (NAME_BYTES + 1) }
{
    if (b as usize) <= limits::NAME_BYTES {
        return b as usize;
    }
    b as usize % (limits::NAME_BYTES + 1)
}

pub fn node_name(m: &[u8], i: usize) -> &[u8]
    requires { (i < NODES) × IsMemory m.now }
    ensures { (result.now ≡ (node_at (was m.now).nodes i).name) × (length result.now ≤ NAME_BYTES) }
{
    let at = NODES_AT + i * NODE_WIDTH;
    let n = name_length(m[at + 22]);
    let start = at + 23;
    let end = start + n;
    &m[start..end]
}

// Whether node i has this parent and this name. The row's own length comes last: all else hangs on the searched name's,
// so that a search is compiled to a loop for each class of lengths.
pub fn is_child(m: &[u8], i: usize, parent: u64, name: &[u8]) -> bool
    requires { (i < NODES) × IsMemory m.now }
    ensures { result ≡ is_child parent name.now (node_at (was m.now).nodes i) }
{
    if node_parent(m, i) != parent {
        return false;
    }
    let n = name.len();
    if limits::NAME_BYTES < n {
        return false;
    }
    let at = NODES_AT + i * NODE_WIDTH;
    let start = at + 23;
    let end = start + n;
    if !buffers::same(&m[start..end], name) {
        return false;
    }
    name_length(m[at + 22]) == n
}

// A node's row.
pub fn node_row(
    id: u64,
    parent: u64,
    kind: u8,
    mode: u8,
    size: u32,
    name: &[u8],
) -> [u8; NODE_WIDTH]
    requires { length name.now ≤ NAME_BYTES }
    ensures { node_of result ≡ with_size size (new_node id parent kind mode name.now) }
{
    let mut r = [0u8; NODE_WIDTH];
    buffers::put_bytes(&mut r, 0, &numbers::bytes8(id));
    buffers::put_bytes(&mut r, 8, &numbers::bytes8(parent));
    r[16] = kind;
    r[17] = mode;
    buffers::put_bytes(&mut r, 18, &numbers::bytes4(size));
    r[22] = name.len() as u8;
    buffers::put(&mut r, 23, name);
    r
}

pub fn put_node(m: &mut [u8], i: usize, row: [u8; NODE_WIDTH])
    requires { (i < NODES) × IsMemory m.old }
    ensures { Becomes m (with_nodes (set (was m.old).nodes i (node_of row))) }
{
    buffers::put(m, NODES_AT + i * NODE_WIDTH, &row);
}

pub fn set_mode(m: &mut [u8], i: usize, mode: u8)
    requires { (i < NODES) × IsMemory m.old }
    ensures { Becomes m (with_nodes (set_mode (was m.old).nodes i mode)) }
{
    m[NODES_AT + i * NODE_WIDTH + 17] = mode;
}

pub fn set_size(m: &mut [u8], i: usize, size: u32)
    requires { (i < NODES) × IsMemory m.old }
    ensures { Becomes m (with_nodes (set_size (was m.old).nodes i size)) }
{
    let b = numbers::bytes4(size);
    buffers::put(m, NODES_AT + i * NODE_WIDTH + 18, &b);
}

pub fn move_nodes(m: &mut [u8], from: usize, to: usize, n: usize)
    requires { (from + n ≤ NODES) × (to + n ≤ NODES) × IsMemory m.old }
    ensures { Becomes m (with_nodes (overwrite (was m.old).nodes to (part from n (was m.old).nodes))) }
{
    move_rows(m, NODES_AT, NODE_WIDTH, from, to, n);
}

// ---- open files

pub fn open_handle(m: &[u8], i: usize) -> u64
    requires { (i < open_rows) × IsMemory m.now }
    ensures { result ≡ (open_at (was m.now).opens i).handle }
{
    numbers::u64_at(m, OPENS_AT + i * OPEN_WIDTH)
}

pub fn open_descriptor(m: &[u8], i: usize) -> u32
    requires { (i < open_rows) × IsMemory m.now }
    ensures { result ≡ (open_at (was m.now).opens i).descriptor }
{
    numbers::u32_at(m, OPENS_AT + i * OPEN_WIDTH + 8)
}

pub fn open_rights(m: &[u8], i: usize) -> u8
    requires { (i < open_rows) × IsMemory m.now }
    ensures { result ≡ (open_at (was m.now).opens i).rights }
{
    m[OPENS_AT + i * OPEN_WIDTH + 12]
}

pub fn open_cursor(m: &[u8], i: usize) -> u32
    requires { (i < open_rows) × IsMemory m.now }
    ensures { result ≡ (open_at (was m.now).opens i).cursor }
{
    numbers::u32_at(m, OPENS_AT + i * OPEN_WIDTH + 16)
}

// Where the node of open file i stood when it was opened. A removal may have moved it, so this is where a search begins
// and no more.
pub fn open_hint(m: &[u8], i: usize) -> u8
    requires { (i < open_rows) × IsMemory m.now }
    ensures { result ≡ get_or m.now (opens_at + i * open_width + hint_at) 0 }
{
    m[OPENS_AT + i * OPEN_WIDTH + 13]
}

// An open file's row.
pub fn open_row(handle: u64, descriptor: u32, rights: u8, hint: u8, cursor: u32) -> [u8; OPEN_WIDTH]
    ensures { (open_of result ≡ with_cursor cursor (new_open_file handle descriptor rights))
        × (get_or result hint_at 0 ≡ hint) }
{
    let mut r = [0u8; OPEN_WIDTH];
    buffers::put_bytes(&mut r, 0, &numbers::bytes8(handle));
    buffers::put_bytes(&mut r, 8, &numbers::bytes4(descriptor));
    r[12] = rights;
    r[13] = hint;
    buffers::put_bytes(&mut r, 16, &numbers::bytes4(cursor));
    r
}

pub fn put_open(m: &mut [u8], i: usize, row: [u8; OPEN_WIDTH])
    requires { (i < open_rows) × IsMemory m.old }
    ensures { Becomes m (with_opens (set (was m.old).opens i (open_of row))) }
{
    buffers::put(m, OPENS_AT + i * OPEN_WIDTH, &row);
}

pub fn set_cursor(m: &mut [u8], i: usize, cursor: u32)
    requires { (i < open_rows) × IsMemory m.old }
    ensures { Becomes m (with_opens (set_cursor (was m.old).opens i cursor)) }
{
    let b = numbers::bytes4(cursor);
    buffers::put(m, OPENS_AT + i * OPEN_WIDTH + 16, &b);
}

pub fn move_opens(m: &mut [u8], from: usize, to: usize, n: usize)
    requires { (from + n ≤ open_rows) × (to + n ≤ open_rows) × IsMemory m.old }
    ensures { Becomes m (with_opens (overwrite (was m.old).opens to (part from n (was m.old).opens))) }
{
    move_rows(m, OPENS_AT, OPEN_WIDTH, from, to, n);
}

// ---- digests

pub fn digest(m: &[u8], k: usize) -> &[u8]
    requires { (k < PAGES) × IsMemory m.now }
    ensures { (result.now ≡ get_or (was m.now).digests k []) × (length result.now ≡ DIGEST_BYTES) }
{
    let at = DIGESTS_AT + k * DIGEST_WIDTH;
    let end = at + DIGEST_WIDTH;
    &m[at..end]
}

pub fn put_digest(m: &mut [u8], k: usize, x: [u8; DIGEST_WIDTH])
    requires { (k < PAGES) × IsMemory m.old }
    ensures { Becomes m (with_digests (set (was m.old).digests k x)) }
{
    buffers::put(m, DIGESTS_AT + k * DIGEST_WIDTH, &x);
}

pub fn move_digests(m: &mut [u8], from: usize, to: usize, n: usize)
    requires { (from + n ≤ PAGES) × (to + n ≤ PAGES) × IsMemory m.old }
    ensures { Becomes m (with_digests (overwrite (was m.old).digests to (part from n (was m.old).digests))) }
{
    move_rows(m, DIGESTS_AT, DIGEST_WIDTH, from, to, n);
}

// The first n digests, one behind the other.
pub fn digests(m: &[u8], n: usize) -> &[u8]
    requires { (n ≤ PAGES) × IsMemory m.now }
    ensures { (result.now ≡ put_all (bytes digest_width) (take n (was m.now).digests))
        × (length result.now ≡ n * digest_width) }
{
    let at = DIGESTS_AT;
    let end = at + n * DIGEST_WIDTH;
    &m[at..end]
}

// n digests that stand one behind the other, kept as the first n.
pub fn put_digests(m: &mut [u8], n: usize, x: &[u8])
    requires { (n ≤ PAGES) × (length x.now ≡ n * digest_width) × IsMemory m.old }
    ensures { Becomes m (with_digests (overwrite (was m.old).digests 0 (rows digest_width n x.now))) }
{
    buffers::put(m, DIGESTS_AT, x);
}

// ---- the staging area

pub fn staged(m: &[u8], at: usize, n: usize) -> &[u8]
    requires { (at + n ≤ staging_size) × IsMemory m.now }
    ensures { (result.now ≡ part at n (was m.now).staged) × (length result.now ≡ n) }
{
    let start = STAGING_AT + at;
    let end = start + n;
    &m[start..end]
}

pub fn stage(m: &mut [u8], at: usize, x: &[u8])
    requires { (at + length x.now ≤ staging_size) × IsMemory m.old }
    ensures { Becomes m (with_staged (overwrite (was m.old).staged at x.now)) }
{
    buffers::put(m, STAGING_AT + at, x);
}

// Digest k of the new ones in the staging area.
pub fn stage_digest(m: &mut [u8], k: usize, x: [u8; DIGEST_WIDTH])
    requires { (k < new_digests) × IsMemory m.old }
    ensures { Becomes m (with_staged (overwrite (was m.old).staged (data_size + k * digest_width) x)) }
{
    buffers::put(m, STAGING_AT + (DATA_SIZE + k * DIGEST_WIDTH), &x);
}

// The first n new digests, kept from digest i on.
pub fn keep_digests(m: &mut [u8], i: usize, n: usize)
    requires { (i + n ≤ PAGES) × (n ≤ new_digests) × IsMemory m.old }
    ensures { Becomes m
        (with_digests (overwrite (was m.old).digests i
        (rows digest_width n (part data_size (n * digest_width) (was m.old).staged)))) }
{
    buffers::shift(
        m,
        STAGING_AT + DATA_SIZE,
        DIGESTS_AT + i * DIGEST_WIDTH,
        n * DIGEST_WIDTH,
    );
}

// ---- maps

pub fn map_address(m: &[u8], i: usize) -> u64
    requires { (i < MAPS) × IsMemory m.now }
    ensures { result ≡ (map_at (was m.now).maps i).address }
{
    numbers::u64_at(m, MAPS_AT + i * MAP_WIDTH)
}

pub fn map_size(m: &[u8], i: usize) -> u32
    requires { (i < MAPS) × IsMemory m.now }
    ensures { result ≡ (map_at (was m.now).maps i).size }
{
    numbers::u32_at(m, MAPS_AT + i * MAP_WIDTH + 8)
}

// A map's row.
fn map_row(address: u64, size: u32) -> [u8; MAP_WIDTH]
    ensures { map_of result ≡ record { address = address; size = size } }
{
    let mut r = [0u8; MAP_WIDTH];
    buffers::put_bytes(&mut r, 0, &numbers::bytes8(address));
    buffers::put_bytes(&mut r, 8, &numbers::bytes4(size));
    r
}

pub fn put_map(m: &mut [u8], i: usize, address: u64, size: u32)
    requires { (i < MAPS) × IsMemory m.old }
    ensures { Becomes m (with_maps (set (was m.old).maps i (record { address = address; size = size }))) }
{
    let row = map_row(address, size);
    buffers::put(m, MAPS_AT + i * MAP_WIDTH, &row);
}

pub fn move_maps(m: &mut [u8], from: usize, to: usize, n: usize)
    requires { (from + n ≤ MAPS) × (to + n ≤ MAPS) × IsMemory m.old }
    ensures { Becomes m (with_maps (overwrite (was m.old).maps to (part from n (was m.old).maps))) }
{
    move_rows(m, MAPS_AT, MAP_WIDTH, from, to, n);
}
