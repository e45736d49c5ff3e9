// A truncation by handle. To fewer bytes: inside a page that page is fetched, stored with zeros from the new end on,
// then the file is cut; on a page's edge it is only cut. To more bytes it is only cut, wherever its old end lies. To
// the same size it is done at once.
#![tactic(auto)]

ghost use Rattle.std.specs.Prelude.{◌≡◌, ℕ, ◌<◌, ◌≤◌, ◌/◌, length, OnOk};
ghost use Rattle.filesystem.specs.Tables.{NODES, PAGE_BYTES, FILE_BYTES, open_at};
ghost use Rattle.rules.specs.Calls.{truncate};
ghost use Rattle.rules.specs.Pages.{growing};
ghost use Rattle.rules.specs.Requests.{cutting, cut_request};
ghost use Rattle.machine.specs.Machine.{guard as digest_store, ask_store, pages_from, pages_stored};
ghost use Rattle.memory.specs.Layout.{open_rows, new_digests};
ghost use Rattle.memory.specs.Memories.{IsMemory, was};
ghost use Rattle.guard_state.specs.Calls.{CUTTING, GROWING, SHRINK_FETCHING, SHRINK_STORING};
ghost use Rattle.guard_state.specs.State.{numbers_in};
ghost use Rattle.outcomes.specs.Clauses.{Accepts, AcceptsAsking, Begins};
ghost use Rattle.outcomes.specs.Sent.{Asks};
ghost use Rattle.requests.specs.Room.{HoldsRequest};
ghost use Rattle.refusals.specs.Numbers.{numbered};
ghost use Rattle.handle_calls.specs.Judged.{Judgement};
ghost use Rattle.page_changes.specs.Clauses.{Goes, Moves, StartsAt};
ghost use Rattle.truncations.specs.Shrinking.{Shrinking, shrink_in};

use guard_state::Guard;
use handle_calls::Handled;
use outcomes::Outcome;
use refusals::{Refusal, StopReason};

// truncate: 9 without right 2, 27, 28. A size that passes is a file's.
fn judge_truncate(m: &[u8], n: usize, o: usize, handle: u64, size: u64) -> Result<Handled, Refusal>
    requires { (n ≤ NODES) × (o ≤ open_rows) × IsMemory m.now }
    ensures judgement { Judgement m.now n o handle (truncate handle size) (numbered result) }
    ensures fits { OnOk result (size ≤ FILE_BYTES) }
{
    let k = handle_calls::find_with_right(m, o, handle, 2)?;
    if (Guard::FILE_BYTES as u64) < size {
        return Err(Refusal::FileTooLarge);
    }
    let node = handle_calls::file_place(m, n, k, handle);
    if handle_calls::is_full(m, n, node, size as u32) {
        return Err(Refusal::NoSpace);
    }
    Ok(Handled { opened: k, node })
}

// The pending truncation asks for the cut.
fn ask_cut(m: &mut [u8], request: &mut [u8]) -> Outcome
    requires { Shrinking (numbers_in m.old).call × IsMemory m.old × HoldsRequest request.old }
    ensures { Moves m request (λ c s. pages_stored c (digest_store c) s (numbers_in m.old).node
        (numbers_in m.old).opened (shrink_in m.old)) result }
{
    let g = Guard::load(m);
    let d = memory::open_descriptor(m, g.opened);
    guard_state::wait_further(m, guard_state::calls::CUTTING, g.page);
    let l = requests::write_cut(request, d, g.size as u32);
    Outcome::Ask(l)
}

// The page that the new end lies in goes out, with zeros from there on.
fn store_page(m: &mut [u8], fetched: &[u8], request: &mut [u8]) -> Outcome
    requires { Shrinking (numbers_in m.old).call × ((numbers_in m.old).digests < new_digests)
        × (length fetched.now ≤ PAGE_BYTES) × IsMemory m.old × HoldsRequest request.old }
    ensures { Goes m request shrink_in (numbers_in m.old).page (λ c s k o q. ask_store c (digest_store c) s k o
        q (numbers_in m.old).page fetched.now) result }
{
    let g = Guard::load(m);
    let size = memory::node_size(m, g.node);
    let d = memory::open_descriptor(m, g.opened);
    let page = g.page;
    let l = requests::write_store_cut(request, d, page, size, fetched, g.size);
    page_changes::send_store(m, guard_state::calls::SHRINK_STORING, page, request)
}

// The pending truncation asks for its first page, or, on a page's edge, for the cut.
fn start(m: &mut [u8], request: &mut [u8]) -> Outcome
    requires { Shrinking (numbers_in m.old).call × IsMemory m.old × HoldsRequest request.old }
    ensures { Moves m request (λ c s. pages_from c (digest_store c) s (numbers_in m.old).node
        (numbers_in m.old).opened (shrink_in m.old) ((numbers_in m.old).size / PAGE_BYTES)) result }
{
    let g = Guard::load(m);
    if g.size % Guard::PAGE_BYTES == 0 {
        return ask_cut(m, request);
    }
    page_changes::ask_page(
        m,
        guard_state::calls::SHRINK_FETCHING,
        g.size / Guard::PAGE_BYTES,
        request,
    )
}

// A truncation to more bytes asks for its cut, and for nothing else.
fn ask_growth(m: &mut [u8], opened: usize, node: usize, size: usize, request: &mut [u8]) -> Outcome
    requires { (opened < open_rows) × (node < NODES) × (size ≤ FILE_BYTES) × IsMemory m.old × HoldsRequest request.old }
    ensures { Asks m request (cutting node opened (growing size))
        (cut_request (open_at (was m.old).opens opened).descriptor size) result }
{
    let d = memory::open_descriptor(m, opened);
    guard_state::wait_truncate(m, guard_state::calls::GROWING, node, opened, size);
    let l = requests::write_cut(request, d, size as u32);
    Outcome::Ask(l)
}

// A truncation that passed, by the places of its open file and node.
fn truncate_at(m: &mut [u8], opened: usize, node: usize, size: usize, request: &mut [u8]) -> Outcome
    requires { (opened < open_rows) × (size ≤ FILE_BYTES) × IsMemory m.old × HoldsRequest request.old }
    ensures { StartsAt m request (λ handle. truncate handle size) opened node result }
{
    // no valid table has such a place
    if Guard::NODES <= node {
        return Outcome::Refused(Refusal::BadHandle);
    }
    let old = memory::node_size(m, node) as usize;
    if size == old {
        guard_state::finish(m);
        return Outcome::Done {
            number: 0,
            length: 0,
        };
    }
    if old < size {
        return ask_growth(m, opened, node, size, request);
    }
    guard_state::wait_truncate(m, guard_state::calls::SHRINK_FETCHING, node, opened, size);
    start(m, request)
}

// truncate: the open file with this handle has this size.
pub fn begin_truncate(m: &mut [u8], handle: u64, size: u64, request: &mut [u8]) -> Outcome
    requires { IsMemory m.old × HoldsRequest request.old }
    ensures { Begins m request (truncate handle size) result }
{
    let g = Guard::load(m);
    match judge_truncate(m, g.nodes, g.opens, handle, size) {
        Ok(file) => truncate_at(m, file.opened, file.node, size as usize, request),
        Err(refusal) => Outcome::Refused(refusal),
    }
}

// ---- replies

// The page that the truncation fetched came.
pub fn accept_fetched(m: &mut [u8], reply: &[u8], request: &mut [u8]) -> Outcome
    requires { ((numbers_in m.old).call ≡ SHRINK_FETCHING) × IsMemory m.old × HoldsRequest request.old }
    ensures { AcceptsAsking m reply.now request result }
{
    if let Err(reason) = page_changes::judge_fetched(m, reply) {
        return Outcome::Stopped(reason);
    }
    store_page(m, reply, request)
}

// The page that the truncation stored is taken: the file is cut.
pub fn accept_stored(m: &mut [u8], reply: &[u8], request: &mut [u8]) -> Outcome
    requires { ((numbers_in m.old).call ≡ SHRINK_STORING) × IsMemory m.old × HoldsRequest request.old }
    ensures { AcceptsAsking m reply.now request result }
{
    if let Err(reason) = replies::judge_status(reply, Guard::PAGE_BYTES as i32) {
        return Outcome::Stopped(reason);
    }
    ask_cut(m, request)
}

// The file is cut to more bytes: its added pages are zero, the cursor stays, the truncation is done; or the disk is
// full.
pub fn accept_growth(m: &mut [u8], reply: &[u8]) -> Outcome
    requires { ((numbers_in m.old).call ≡ GROWING) × IsMemory m.old }
    ensures { Accepts m reply.now result }
{
    if let Err(reason) = replies::judge_status(reply, 0) {
        if replies::is_full(reply) {
            return replies::give_up(m);
        }
        return Outcome::Stopped(reason);
    }
    let g = Guard::load(m);
    // no consistent state has a growth that its tables cannot take
    if !tables::grow_file(m, g.nodes, g.node, g.size as u32) {
        return Outcome::Stopped(StopReason::Status);
    }
    guard_state::rest(m, g.nodes, g.opens);
    Outcome::Done {
        number: 0,
        length: 0,
    }
}

// The file is cut to fewer bytes: the truncation is done.
pub fn accept_cut(m: &mut [u8], reply: &[u8]) -> Outcome
    requires { ((numbers_in m.old).call ≡ CUTTING) × IsMemory m.old }
    ensures { Accepts m reply.now result }
{
    if let Err(reason) = replies::judge_status(reply, 0) {
        return Outcome::Stopped(reason);
    }
    let g = Guard::load(m);
    let size = g.size as u32;
    let cursor = (memory::open_cursor(m, g.opened) as usize).min(g.size) as u32;
    page_changes::end_change(
        m,
        g.node,
        g.opened,
        size,
        cursor,
        g.size / Guard::PAGE_BYTES,
        g.digests,
        0,
    )
}
