// A write by handle: begun, its pages fetched where a byte of them stays, made, stored in rising order; done when the
// last status came, or with the pages that are stored where the disk is full.
#![tactic(auto)]

ghost use Rattle.std.specs.Prelude.{List, ◌≡◌, ℕ, ◌<◌, ◌≤◌, ◌+◌, length};
ghost use Rattle.filesystem.specs.Tables.{NODES, PAGE_BYTES, FILE_BYTES, DATA_BYTES};
ghost use Rattle.rules.specs.Calls.{write};
ghost use Rattle.rules.specs.Pages.{writing, fetches};
ghost use Rattle.rules.specs.Requests.{storing};
ghost use Rattle.rules.specs.Rules.{full_action};
ghost use Rattle.rules.specs.Skeleton.{Config};
ghost use Rattle.machine.specs.Consistent.{Consistent};
ghost use Rattle.machine.specs.Machine.{guard as digest_store, ask_store, on_page, pages_from, trimmed};
ghost use Rattle.machine.specs.Machine.{finish_change, apply};
ghost use Rattle.numbers.specs.Slices.{KeepsLength};
ghost use Rattle.memory.specs.Layout.{open_rows, new_digests};
ghost use Rattle.memory.specs.Memories.{IsMemory};
ghost use Rattle.guard_state.specs.Calls.{FETCHING, STORING};
ghost use Rattle.guard_state.specs.State.{state_of, numbers_in, file_pages};
ghost use Rattle.outcomes.specs.Clauses.{AcceptsAsking, Begins};
ghost use Rattle.outcomes.specs.Sent.{Sends};
ghost use Rattle.requests.specs.Room.{HoldsRequest};
ghost use Rattle.refusals.specs.Numbers.{numbered};
ghost use Rattle.handle_calls.specs.Judged.{Judgement};
ghost use Rattle.page_changes.specs.Clauses.{Goes, StartsAt};
ghost use Rattle.writes.specs.Writing.{Writing, write_in, EndsAt};

use guard_state::Guard;
use handle_calls::Handled;
use outcomes::Outcome;
use refusals::{Refusal, StopReason};

const FILE_PAGES: usize = Guard::FILE_BYTES / Guard::PAGE_BYTES;

// write: 9 without right 2, 27, 28.
fn judge_write(m: &[u8], n: usize, o: usize, handle: u64, bytes: &[u8]) -> Result<Handled, Refusal>
    requires { (n ≤ NODES) × (o ≤ open_rows) × IsMemory m.now }
    ensures { Judgement m.now n o handle (write handle bytes.now) (numbered result) }
{
    let k = handle_calls::find_with_right(m, o, handle, 2)?;
    // before the sum, which has to fit
    if Guard::FILE_BYTES < bytes.len() {
        return Err(Refusal::FileTooLarge);
    }
    let end = memory::open_cursor(m, k) as usize + bytes.len();
    if Guard::FILE_BYTES < end {
        return Err(Refusal::FileTooLarge);
    }
    let node = handle_calls::file_place(m, n, k, handle);
    let size = handle_calls::size_at(m, n, node).max(end as u32);
    if handle_calls::is_full(m, n, node, size) {
        return Err(Refusal::NoSpace);
    }
    Ok(Handled { opened: k, node })
}

// Whether a byte of the page below the old end is not overwritten, so that the page is fetched first.
fn is_fetched(position: usize, end: usize, size: usize, page: usize) -> bool
    requires { page ≤ file_pages }
    ensures { (d : List ℕ) → end ≡ position + length d → result ≡ fetches (writing position d) size page }
{
    let start = page * Guard::PAGE_BYTES;
    if size <= start {
        return false;
    }
    if start < position {
        return true;
    }
    end < size.min(start + Guard::PAGE_BYTES)
}

// A page of the pending write goes out, made from the one that was fetched or from none.
fn store_page(m: &mut [u8], page: usize, fetched: &[u8], request: &mut [u8]) -> Outcome
    requires { Writing (numbers_in m.old).call × ((numbers_in m.old).digests < new_digests) × (page ≤ file_pages)
        × (length fetched.now ≤ PAGE_BYTES) × IsMemory m.old × HoldsRequest request.old }
    ensures { Goes m request write_in page (λ c s k o q. ask_store c (digest_store c) s k o q page
        fetched.now) result }
{
    let g = Guard::load(m);
    let end = g.position + g.bytes;
    let reached = end.min(page * Guard::PAGE_BYTES + Guard::PAGE_BYTES);
    let size = memory::node_size(m, g.node).max(reached as u32);
    let d = memory::open_descriptor(m, g.opened);
    let bytes = memory::staged(m, 0, g.bytes);
    let l = requests::write_store(request, d, page, size, fetched, g.position, bytes);
    page_changes::send_store(m, guard_state::calls::STORING, page, request)
}

// The pending write is done with its bytes before `end`: the file's size, the digests of `count` pages and the cursor.
fn end_write(m: &mut [u8], end: usize, count: usize) -> Outcome
    requires { ((numbers_in m.old).position ≤ end) × (end ≤ FILE_BYTES + DATA_BYTES) × IsMemory m.old }
    ensures sends { (c : Config) (d : List ℕ) → EndsAt c m.old d end count → (b : List ℕ)
        → Sends c (finish_change c (digest_store c) (trimmed c (digest_store c) (state_of c m.old) count)
        (numbers_in m.old).node (numbers_in m.old).opened (writing (numbers_in m.old).position d)) result
        m.new b b }
    ensures keeps_length { KeepsLength m }
{
    let g = Guard::load(m);
    let cursor = end as u32;
    let size = memory::node_size(m, g.node).max(cursor);
    page_changes::end_change(
        m,
        g.node,
        g.opened,
        size,
        cursor,
        g.position / Guard::PAGE_BYTES,
        count,
        (end - g.position) as u64,
    )
}

// The disk is full where a page of the pending write was to be stored: the write is done with the pages before it, and
// without one it is refused.
fn keep_pages(m: &mut [u8]) -> Outcome
    requires { ((numbers_in m.old).call ≡ STORING) × IsMemory m.old }
    ensures sends { (c : Config) → Consistent c (state_of c m.old) → (b : List ℕ)
        → Sends c (apply c (digest_store c) (state_of c m.old) (full_action
        (storing (numbers_in m.old).node (numbers_in m.old).opened (write_in m.old)
        (numbers_in m.old).page))) result m.new b b }
    ensures keeps_length { KeepsLength m }
{
    let g = Guard::load(m);
    let first = g.position / Guard::PAGE_BYTES;
    if g.page <= first {
        return replies::give_up(m);
    }
    end_write(m, g.page * Guard::PAGE_BYTES, g.page - first)
}

// A page of the pending write: it is fetched, or goes out at once.
fn on_page(m: &mut [u8], page: usize, request: &mut [u8]) -> Outcome
    requires { Writing (numbers_in m.old).call × ((numbers_in m.old).digests < new_digests) × (page ≤ file_pages) × IsMemory m.old
        × HoldsRequest request.old }
    ensures { Goes m request write_in page (λ c s k o q. on_page c (digest_store c) s k o q page) result }
{
    let g = Guard::load(m);
    let end = g.position + g.bytes;
    let size = memory::node_size(m, g.node) as usize;
    if is_fetched(g.position, end, size, page) {
        return page_changes::ask_page(m, guard_state::calls::FETCHING, page, request);
    }
    store_page(m, page, b"", request)
}

// The pending write goes on with this page, or is done. No consistent write has more digests than there is room for.
fn carry_on(m: &mut [u8], page: usize, request: &mut [u8]) -> Outcome
    requires { Writing (numbers_in m.old).call × (page ≤ file_pages) × IsMemory m.old × HoldsRequest request.old }
    ensures { Goes m request write_in page (λ c s k o q. pages_from c (digest_store c) s k o q page) result }
{
    let g = Guard::load(m);
    if g.position + g.bytes <= page * Guard::PAGE_BYTES {
        return end_write(m, g.position + g.bytes, g.digests);
    }
    if memory::NEW_DIGESTS <= g.digests {
        return Outcome::Stopped(StopReason::Status);
    }
    on_page(m, page, request)
}

// A write that passed, by the places of its open file and node. Of no bytes it asks for nothing.
fn write_at(m: &mut [u8], opened: usize, node: usize, bytes: &[u8], request: &mut [u8]) -> Outcome
    requires { (opened < open_rows) × (length bytes.now ≤ DATA_BYTES) × IsMemory m.old × HoldsRequest request.old }
    ensures { StartsAt m request (λ handle. write handle bytes.now) opened node result }
{
    if bytes.len() == 0 {
        guard_state::finish(m);
        return Outcome::Done {
            number: 0,
            length: 0,
        };
    }
    let cursor = memory::open_cursor(m, opened) as usize;
    // no valid table has such a place or such a cursor
    if Guard::NODES <= node {
        return Outcome::Refused(Refusal::BadHandle);
    }
    if Guard::FILE_BYTES < cursor {
        return Outcome::Refused(Refusal::FileTooLarge);
    }
    guard_state::wait_write(m, node, opened, cursor, bytes);
    carry_on(m, cursor / Guard::PAGE_BYTES, request)
}

// write: these bytes at the cursor of the open file with this handle.
pub fn begin_write(m: &mut [u8], handle: u64, bytes: &[u8], request: &mut [u8]) -> Outcome
    requires { (length bytes.now ≤ DATA_BYTES) × IsMemory m.old × HoldsRequest request.old }
    ensures { Begins m request (write handle bytes.now) result }
{
    let g = Guard::load(m);
    match judge_write(m, g.nodes, g.opens, handle, bytes) {
        Ok(file) => write_at(m, file.opened, file.node, bytes, request),
        Err(refusal) => Outcome::Refused(refusal),
    }
}

// ---- replies

// The page that the write fetched came.
pub fn accept_fetched(m: &mut [u8], reply: &[u8], request: &mut [u8]) -> Outcome
    requires { ((numbers_in m.old).call ≡ FETCHING) × IsMemory m.old × HoldsRequest request.old }
    ensures { AcceptsAsking m reply.now request result }
{
    if let Err(reason) = page_changes::judge_fetched(m, reply) {
        return Outcome::Stopped(reason);
    }
    let g = Guard::load(m);
    store_page(m, g.page, reply, request)
}

// The page that the write stored is taken: 1,024 bytes of it; or the disk is full.
pub fn accept_stored(m: &mut [u8], reply: &[u8], request: &mut [u8]) -> Outcome
    requires { ((numbers_in m.old).call ≡ STORING) × IsMemory m.old × HoldsRequest request.old }
    ensures { AcceptsAsking m reply.now request result }
{
    if let Err(reason) = replies::judge_status(reply, Guard::PAGE_BYTES as i32) {
        if replies::is_full(reply) {
            return keep_pages(m);
        }
        return Outcome::Stopped(reason);
    }
    let g = Guard::load(m);
    let page = g.page + 1;
    // no consistent write stores a page behind the largest file
    if FILE_PAGES < page {
        return Outcome::Stopped(StopReason::Status);
    }
    carry_on(m, page, request)
}
