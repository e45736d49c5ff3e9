// Host requests written over the front of the caller's request buffer (SPECIFICATION 5.1), the page of a store among
// them.
#![tactic(auto)]

ghost use Rattle.std.specs.Prelude.{◌∷◌, ◌++◌, ◌≡◌, ◌+◌, ◌/◌, ◌≤◌, length};
ghost use Rattle.lists.specs.LittleEndian.{encode};
ghost use Rattle.filesystem.specs.Tables.{PAGE_BYTES, FILE_BYTES, PATH_BYTES};
ghost use Rattle.rules.specs.Pages.{writing, shrinking, resized, fill};
ghost use Rattle.rules.specs.Requests.{close_request, fetch_request, store_request, store_length, cut_request};
ghost use Rattle.rules.specs.Skeleton.{at_front};
ghost use Rattle.numbers.specs.Slices.{Overwritten};
ghost use Rattle.requests.specs.PathRequests.{has_number, path_request, rename_request};
ghost use Rattle.requests.specs.Room.{HoldsRequest};
ghost use Rattle.requests.specs.StoredPages.{zeros};

use limits::kinds;

// A store: kind, descriptor, page, size, and the page's bytes.
pub const STORE_LENGTH: usize = STORE_FRONT + limits::PAGE_BYTES;

pub const STORE_FRONT: usize = 13;

// The kind of a request and the descriptor, with which all begin.
fn put_head(out: &mut [u8], kind: u8, descriptor: u32)
    requires { 5 ≤ length out.old }
    ensures { Overwritten out 0 (kind ∷ encode 4 descriptor) }
{
    numbers::put_number(out, 1, 4, descriptor as u64);
    out[0] = kind;
}

// The same with a number of four bytes behind.
fn put_longer(out: &mut [u8], kind: u8, descriptor: u32, number: u64)
    requires { 9 ≤ length out.old }
    ensures { Overwritten out 0 (kind ∷ (encode 4 descriptor ++ encode 4 number)) }
{
    put_head(out, kind, descriptor);
    numbers::put_number(out, 5, 4, number);
}

fn put_plain(out: &mut [u8], kind: u8, path: &[u8]) -> usize
    requires { 1 + length path.now ≤ length out.old }
    ensures { (out.new ≡ at_front (kind ∷ path.now) out.old)
        × (result ≡ 1 + length path.now) }
{
    let front = [kind];
    buffers::put(out, 0, &front);
    buffers::put(out, 1, path);
    1 + path.len()
}

fn put_numbered(out: &mut [u8], kind: u8, number: u8, path: &[u8]) -> usize
    requires { 2 + length path.now ≤ length out.old }
    ensures { (out.new ≡ at_front (kind ∷ number ∷ path.now) out.old)
        × (result ≡ 2 + length path.now) }
{
    let front = [kind, number];
    buffers::put(out, 0, &front);
    buffers::put(out, 2, path);
    2 + path.len()
}

// create, mkdir and chmod have a mode, open has rights.
fn has_number(kind: u8) -> bool
    ensures { result ≡ has_number kind }
{
    if kind <= kinds::OPEN {
        return true;
    }
    kind == kinds::CHMOD
}

// A call by path sends itself: its kind, its mode or rights where it has one, and the path.
pub fn write_path(out: &mut [u8], kind: u8, number: u8, path: &[u8]) -> usize
    requires { (length path.now ≤ PATH_BYTES) × HoldsRequest out.old }
    ensures { (out.new ≡ at_front (path_request kind number path.now) out.old)
        × (result ≡ length (path_request kind number path.now)) }
{
    if has_number(kind) {
        return put_numbered(out, kind, number, path);
    }
    put_plain(out, kind, path)
}

// rename: the first path's length, and both paths.
pub fn write_rename(out: &mut [u8], first: &[u8], second: &[u8]) -> usize
    requires { (length first.now ≤ PATH_BYTES) × (length second.now ≤ PATH_BYTES) × HoldsRequest out.old }
    ensures { (out.new ≡ at_front (rename_request first.now second.now)
        out.old) × (result ≡ length (rename_request first.now second.now)) }
{
    let front = put_numbered(out, kinds::RENAME, first.len() as u8, first);
    buffers::put(out, front, second);
    front + second.len()
}

// close: the descriptor.
pub fn write_close(out: &mut [u8], descriptor: u32) -> usize
    requires { HoldsRequest out.old }
    ensures { (out.new ≡ at_front (close_request descriptor) out.old)
        × (result ≡ length (close_request descriptor)) }
{
    put_head(out, kinds::CLOSE, descriptor);
    5
}

// fetch: the descriptor and the page.
pub fn write_fetch(out: &mut [u8], descriptor: u32, page: u32) -> usize
    requires { HoldsRequest out.old }
    ensures { (out.new ≡ at_front (fetch_request descriptor page) out.old)
        × (result ≡ length (fetch_request descriptor page)) }
{
    put_longer(out, kinds::READ, descriptor, page as u64);
    9
}

// cut: the descriptor and the size.
pub fn write_cut(out: &mut [u8], descriptor: u32, size: u32) -> usize
    requires { HoldsRequest out.old }
    ensures { (out.new ≡ at_front (cut_request descriptor size) out.old)
        × (result ≡ length (cut_request descriptor size)) }
{
    put_longer(out, kinds::TRUNCATE, descriptor, size as u64);
    9
}

// map: the size.
pub fn write_map(out: &mut [u8], size: u32) -> usize
    requires { HoldsRequest out.old }
    ensures { (out.new ≡ at_front (14 ∷ encode 4 size) out.old) × (result ≡ 5) }
{
    put_head(out, kinds::MAP, size);
    5
}

// unmap: the address.
pub fn write_unmap(out: &mut [u8], address: u64) -> usize
    requires { HoldsRequest out.old }
    ensures { (out.new ≡ at_front (15 ∷ encode 8 address) out.old) × (result ≡ 9) }
{
    numbers::put_number(out, 1, 8, address);
    out[0] = kinds::UNMAP;
    9
}

fn put_zeros(out: &mut [u8], at: usize, n: usize)
    requires { at + n ≤ length out.old }
    ensures { Overwritten out at (zeros n) }
{
    out[at..at + n].fill(0);
}

// A page over a part of out: the bytes that there are, zeros behind.
fn put_page(out: &mut [u8], at: usize, page: &[u8])
    requires { (at + PAGE_BYTES ≤ length out.old) × (length page.now ≤ PAGE_BYTES) }
    ensures { Overwritten out at (resized page.now PAGE_BYTES) }
{
    let n = page.len();
    buffers::put(out, at, page);
    put_zeros(out, at + n, limits::PAGE_BYTES - n);
}

// Page i as a write stores it, over a part of out.
fn put_written(out: &mut [u8], at: usize, page: &[u8], position: usize, bytes: &[u8], i: usize)
    requires { (at + PAGE_BYTES ≤ length out.old) × (length page.now ≤ PAGE_BYTES) × (position ≤ FILE_BYTES)
        × (i ≤ FILE_BYTES / PAGE_BYTES) }
    ensures { Overwritten out at (fill (writing position bytes.now) i page.now) }
{
    put_page(out, at, page);
    let start = i * limits::PAGE_BYTES;
    let from = start.saturating_sub(position);
    let to = bytes
        .len()
        .min((start + limits::PAGE_BYTES).saturating_sub(position));
    if to <= from {
        return;
    }
    let place = at + position.saturating_sub(start);
    buffers::put(out, place, &bytes[from..to]);
}

// Page i as a truncation stores it, over a part of out.
fn put_cut(out: &mut [u8], at: usize, page: &[u8], size: usize, i: usize)
    requires { (at + PAGE_BYTES ≤ length out.old) × (length page.now ≤ PAGE_BYTES) × (size ≤ FILE_BYTES)
        × (i ≤ FILE_BYTES / PAGE_BYTES) }
    ensures { Overwritten out at (fill (shrinking size) i page.now) }
{
    let n = page.len().min(size.saturating_sub(i * limits::PAGE_BYTES));
    put_page(out, at, &page[..n]);
}

// store, before its page: the descriptor, the page's number, the file's size.
fn put_store(out: &mut [u8], descriptor: u32, i: usize, size: u32)
    requires { 13 ≤ length out.old }
    ensures { Overwritten out 0 (7 ∷ (encode 4 descriptor ++ (encode 4 i ++ encode 4 size))) }
{
    put_longer(out, kinds::WRITE, descriptor, i as u64);
    numbers::put_number(out, 9, 4, size as u64);
}

// store, of a write: the page is made from the one that was fetched or none.
pub fn write_store(
    out: &mut [u8],
    descriptor: u32,
    i: usize,
    size: u32,
    page: &[u8],
    position: usize,
    bytes: &[u8],
) -> usize
    requires { HoldsRequest out.old × (length page.now ≤ PAGE_BYTES) × (position ≤ FILE_BYTES)
        × (i ≤ FILE_BYTES / PAGE_BYTES) }
    ensures { (out.new ≡ at_front
        (store_request descriptor i size (fill (writing position bytes.now) i page.now))
        out.old) × (result ≡ store_length) }
{
    put_store(out, descriptor, i, size);
    put_written(out, STORE_FRONT, page, position, bytes, i);
    STORE_LENGTH
}

// store, of a truncation.
pub fn write_store_cut(
    out: &mut [u8],
    descriptor: u32,
    i: usize,
    size: u32,
    page: &[u8],
    to: usize,
) -> usize
    requires { HoldsRequest out.old × (length page.now ≤ PAGE_BYTES) × (to ≤ FILE_BYTES)
        × (i ≤ FILE_BYTES / PAGE_BYTES) }
    ensures { (out.new ≡ at_front
        (store_request descriptor i size (fill (shrinking to) i page.now)) out.old)
        × (result ≡ store_length) }
{
    put_store(out, descriptor, i, size);
    put_cut(out, STORE_FRONT, page, to, i);
    STORE_LENGTH
}
