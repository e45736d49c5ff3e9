// A call read from its bytes, once: its kind and its fields by value, or none where the form is wrong. A path's own
// form is judged with the path.
#![tactic(auto)]

ghost use Rattle.std.specs.Prelude.{true, ◌≡◌, ℕ, ◌<◌, ◌≤◌, leb, length, get_or, drop};
ghost use Rattle.lists.specs.All.{Bytes};
ghost use Rattle.filesystem.specs.Tables.{ID_BYTES, DATA_BYTES};
ghost use Rattle.rules.specs.Calls.{close, seek, read, write, truncate, by_path, by_number_and_path, by_handle};
ghost use Rattle.rules.specs.MapRules.{is_map_size};
ghost use Rattle.rules.specs.Calls.{by_handle_and_number, by_handle_and_bytes, by_number, read_fields, read_call};
ghost use Rattle.rules.specs.Calls.{map_memory, unmap, rename, by_two_paths};
ghost use Rattle.call_reader.specs.Meaning.{made_by, meant_of, NumberFits, RangesOf, HandleOf};

use limits::kinds;

// What a call's bytes say. There is none where the kind, a length or a number is wrong (22).
#[derive(Clone, Copy)]
pub enum ParsedCall {
    // create, mkdir, open, remove, rmdir, chmod, readdir, stat: the kind byte, the mode or the rights (0 where there
    // are none), and where the path begins.
    ByPath { kind: u8, number: u8, start: usize },
    Close { handle: u64 },
    Seek { handle: u64, position: u64 },
    Read { handle: u64, count: u32 },
    // The data are the call's bytes from `start` on.
    Write { handle: u64, start: usize },
    Truncate { handle: u64, size: u64 },
    Map { size: u32 },
    Unmap { address: u64 },
    // Both paths: the first from byte 2 on, the second from `second` on.
    Rename { second: usize },
}

// Where the fields after a handle begin.
const AFTER_HANDLE: usize = 1 + limits::ID_BYTES;

// Modes are 0 to 7, rights 1 to 3.
const LAST_MODE: u8 = 7;

const LAST_RIGHTS: u8 = 3;

// ---- the fields, shape by shape

// A number from `least` to `most`, then a path.
fn read_numbered(s: &[u8], kind: u8, least: u8, most: u8) -> Option<ParsedCall>
    requires { (0 < length s.now) × ((n : ℕ) → least ≤ n → n ≤ most → NumberFits kind n) }
    ensures { (meant_of result s.now ≡ by_number_and_path least most (made_by kind) (drop 1 s.now))
        × RangesOf result (length s.now) }
{
    if s.len() == 1 || s[1] < least || most < s[1] {
        return None;
    }
    Some(ParsedCall::ByPath {
        kind,
        number: s[1],
        start: 2,
    })
}

// A path.
fn read_plain(s: &[u8], kind: u8) -> Option<ParsedCall>
    requires { (0 < length s.now) × NumberFits kind 0 }
    ensures { (meant_of result s.now ≡ by_path (made_by kind 0) (drop 1 s.now))
        × RangesOf result (length s.now) }
{
    Some(ParsedCall::ByPath {
        kind,
        number: 0,
        start: 1,
    })
}

// The handle of a call that has `after` bytes behind it.
fn handle_before(s: &[u8], after: usize) -> Option<u64>
    requires { Bytes s.now × (after ≤ 8) }
    ensures { HandleOf result after s.now }
{
    if s.len() != AFTER_HANDLE + after {
        return None;
    }
    Some(numbers::number_at(s, 1, limits::ID_BYTES))
}

// close: a handle.
fn read_close(s: &[u8]) -> Option<ParsedCall>
    requires { (0 < length s.now) × Bytes s.now }
    ensures { (meant_of result s.now ≡ by_handle ID_BYTES close (drop 1 s.now))
        × RangesOf result (length s.now) }
{
    let handle = handle_before(s, 0)?;
    Some(ParsedCall::Close { handle })
}

// seek: a handle, then the position.
fn read_seek(s: &[u8]) -> Option<ParsedCall>
    requires { (0 < length s.now) × Bytes s.now }
    ensures { (meant_of result s.now ≡ by_handle_and_number ID_BYTES 8 (λ n. true) seek
        (drop 1 s.now)) × RangesOf result (length s.now) }
{
    let handle = handle_before(s, 8)?;
    let position = numbers::u64_at(s, AFTER_HANDLE);
    Some(ParsedCall::Seek { handle, position })
}

// truncate: a handle, then the size. As seek but for what it makes of them, which is what is promised.
fn read_truncate(s: &[u8]) -> Option<ParsedCall>
    requires { (0 < length s.now) × Bytes s.now }
    ensures { (meant_of result s.now ≡ by_handle_and_number ID_BYTES 8 (λ n. true) truncate
        (drop 1 s.now)) × RangesOf result (length s.now) }
{
    let handle = handle_before(s, 8)?;
    let size = numbers::u64_at(s, AFTER_HANDLE);
    Some(ParsedCall::Truncate { handle, size })
}

// read: a handle, then the count.
fn read_read(s: &[u8]) -> Option<ParsedCall>
    requires { (0 < length s.now) × Bytes s.now }
    ensures { (meant_of result s.now ≡ by_handle_and_number ID_BYTES 4 (λ n. leb n DATA_BYTES) read
        (drop 1 s.now)) × RangesOf result (length s.now) }
{
    let handle = handle_before(s, 4)?;
    let count = numbers::u32_at(s, AFTER_HANDLE);
    if limits::DATA_BYTES < count as usize {
        return None;
    }
    Some(ParsedCall::Read { handle, count })
}

// write: a handle, then the data.
fn read_write(s: &[u8]) -> Option<ParsedCall>
    requires { (0 < length s.now) × Bytes s.now }
    ensures { (meant_of result s.now ≡ by_handle_and_bytes ID_BYTES write (drop 1 s.now))
        × RangesOf result (length s.now) }
{
    if s.len() < AFTER_HANDLE || limits::DATA_BYTES < s.len() - AFTER_HANDLE {
        return None;
    }
    let handle = numbers::number_at(s, 1, limits::ID_BYTES);
    Some(ParsedCall::Write {
        handle,
        start: AFTER_HANDLE,
    })
}

// 1 to 16 units.
fn is_map_size(n: u32) -> bool
    ensures { result ≡ is_map_size n }
{
    let size = n as usize;
    (limits::MAP_UNIT..=limits::MAP_BYTES).contains(&size) && size % limits::MAP_UNIT == 0
}

// map: a size.
fn read_map(s: &[u8]) -> Option<ParsedCall>
    requires { (0 < length s.now) × Bytes s.now }
    ensures { (meant_of result s.now ≡ by_number 4 is_map_size map_memory (drop 1 s.now))
        × RangesOf result (length s.now) }
{
    if s.len() != 1 + 4 {
        return None;
    }
    let size = numbers::u32_at(s, 1);
    is_map_size(size).then_some(ParsedCall::Map { size })
}

// unmap: an address.
fn read_unmap(s: &[u8]) -> Option<ParsedCall>
    requires { (0 < length s.now) × Bytes s.now }
    ensures { (meant_of result s.now ≡ by_number 8 (λ n. true) unmap (drop 1 s.now))
        × RangesOf result (length s.now) }
{
    if s.len() != 1 + 8 {
        return None;
    }
    let address = numbers::u64_at(s, 1);
    Some(ParsedCall::Unmap { address })
}

// rename: the first path's length, then both paths.
fn read_rename(s: &[u8]) -> Option<ParsedCall>
    requires { 0 < length s.now }
    ensures { (meant_of result s.now ≡ by_two_paths rename (drop 1 s.now))
        × RangesOf result (length s.now) }
{
    if s.len() == 1 {
        return None;
    }
    let second = 2 + s[1] as usize;
    if s.len() < second {
        return None;
    }
    Some(ParsedCall::Rename { second })
}

// ---- by the kind

// close, seek, read, write, truncate.
fn read_by_handle(s: &[u8], kind: u8) -> Option<ParsedCall>
    requires { (0 < length s.now) × Bytes s.now × (4 ≤ kind) × (kind ≤ 8) }
    ensures { (meant_of result s.now ≡ read_fields ID_BYTES kind (drop 1 s.now))
        × RangesOf result (length s.now) }
{
    match kind {
        kinds::CLOSE => read_close(s),
        kinds::SEEK => read_seek(s),
        kinds::READ => read_read(s),
        kinds::WRITE => read_write(s),
        _ => read_truncate(s),
    }
}

// create, mkdir, open.
fn read_opening(s: &[u8], kind: u8) -> Option<ParsedCall>
    requires { (0 < length s.now) × (1 ≤ kind) × (kind ≤ 3) }
    ensures { (meant_of result s.now ≡ read_fields ID_BYTES kind (drop 1 s.now))
        × RangesOf result (length s.now) }
{
    match kind {
        kinds::CREATE => read_numbered(s, kinds::CREATE, 0, LAST_MODE),
        kinds::MKDIR => read_numbered(s, kinds::MKDIR, 0, LAST_MODE),
        _ => read_numbered(s, kinds::OPEN, 1, LAST_RIGHTS),
    }
}

// remove, rmdir, chmod, readdir, stat.
fn read_by_path(s: &[u8], kind: u8) -> Option<ParsedCall>
    requires { (0 < length s.now) × (9 ≤ kind) × (kind ≤ 13) }
    ensures { (meant_of result s.now ≡ read_fields ID_BYTES kind (drop 1 s.now))
        × RangesOf result (length s.now) }
{
    match kind {
        kinds::REMOVE => read_plain(s, kinds::REMOVE),
        kinds::RMDIR => read_plain(s, kinds::RMDIR),
        kinds::CHMOD => read_numbered(s, kinds::CHMOD, 0, LAST_MODE),
        kinds::READDIR => read_plain(s, kinds::READDIR),
        _ => read_plain(s, kinds::STAT),
    }
}

// map, unmap.
fn read_on_maps(s: &[u8], kind: u8) -> Option<ParsedCall>
    requires { (0 < length s.now) × Bytes s.now × (14 ≤ kind) × (kind ≤ 15) }
    ensures { (meant_of result s.now ≡ read_fields ID_BYTES kind (drop 1 s.now))
        × RangesOf result (length s.now) }
{
    match kind {
        kinds::MAP => read_map(s),
        _ => read_unmap(s),
    }
}

// Any bytes.
pub fn read_call(s: &[u8]) -> Option<ParsedCall>
    ensures { (meant_of result s.now ≡ read_call ID_BYTES s.now)
        × RangesOf result (length s.now) }
{
    if s.len() == 0 {
        return None;
    }
    let kind = s[0];
    match kind {
        kinds::CREATE..=kinds::OPEN => read_opening(s, kind),
        kinds::CLOSE..=kinds::TRUNCATE => read_by_handle(s, kind),
        kinds::REMOVE..=kinds::STAT => read_by_path(s, kind),
        kinds::MAP..=kinds::UNMAP => read_on_maps(s, kind),
        kinds::RENAME => read_rename(s),
        _ => None,
    }
}

// The same of a call that is no close, seek or read. A function of its own, since `read_call` is compiled into the one
// function that calls it: where that one calls this, each call of these kinds takes 40 to 60 instructions more.
pub fn read_other(s: &[u8]) -> Option<ParsedCall>
    requires { 4 ≤ get_or s.now 0 0 → 6 < get_or s.now 0 0 }
    ensures { (meant_of result s.now ≡ read_call ID_BYTES s.now)
        × RangesOf result (length s.now) }
{
    if s.len() == 0 {
        return None;
    }
    let kind = s[0];
    match kind {
        kinds::CREATE..=kinds::OPEN => read_opening(s, kind),
        kinds::WRITE => read_write(s),
        kinds::TRUNCATE => read_truncate(s),
        kinds::REMOVE..=kinds::STAT => read_by_path(s, kind),
        kinds::MAP..=kinds::UNMAP => read_on_maps(s, kind),
        kinds::RENAME => read_rename(s),
        _ => None,
    }
}
