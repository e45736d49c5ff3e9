// readdir: judged, the host asked for the listing; each child must have one entry, and nothing else may.
#![tactic(auto)]

ghost use Rattle.std.specs.Prelude.{true, ◌≡◌, ℕ, ◌<◌, ◌≤◌, length, IfSome};
ghost use Rattle.filesystem.specs.Image.{sound_nodes};
ghost use Rattle.filesystem.specs.Tables.{NODES, node_at, ID_BYTES};
ghost use Rattle.rules.specs.Calls.{readdir};
ghost use Rattle.rules.specs.Requests.{asked, listing};
ghost use Rattle.refusals.specs.Numbers.{numbered, reason_or_0};
ghost use Rattle.memory.specs.Memories.{IsMemory, nodes_of, was};
ghost use Rattle.tables.specs.Found.{found};
ghost use Rattle.tables.specs.View.{tables_in};
ghost use Rattle.guard_state.specs.Calls.{LISTING};
ghost use Rattle.guard_state.specs.State.{numbers_in, HasRoot};
ghost use Rattle.outcomes.specs.Clauses.{AcceptsInto};
ghost use Rattle.requests.specs.Room.{HoldsRequest};
ghost use Rattle.path_calls.specs.Begun.{BeginsPath};
ghost use Rattle.path_calls.specs.Judged.{node_for};
ghost use Rattle.replies.specs.Judged.{reason_for};
ghost use Rattle.listings.specs.ListChecks.{readdir_own};
ghost use Rattle.listings.specs.Listing.{entry_at, entry_end, end_within, entry_place};

use guard_state::Guard;
use limits::kinds;
use outcomes::Outcome;
use refusals::{Refusal, StopReason};

// readdir on node k: 20, 13 (bit 4).
fn readdir_own(m: &[u8], n: usize, k: usize) -> Result<usize, Refusal>
    requires { (k < n) × (n ≤ NODES) × IsMemory m.now }
    ensures { numbered result ≡ readdir_own (nodes_of n m.now) k }
{
    if memory::node_kind(m, k) != limits::DIRECTORY {
        return Err(Refusal::NotDirectory);
    }
    if memory::node_mode(m, k) / 4 % 2 != 1 {
        return Err(Refusal::Denied);
    }
    Ok(k)
}

// readdir: stat's numbers, then its own.
fn judge_readdir(m: &[u8], n: usize, path: &[u8]) -> Result<usize, Refusal>
    requires { (0 < n) × (n ≤ NODES) × IsMemory m.now }
    ensures { (o : ℕ) → numbered result ≡ node_for (tables_in n o (was m.now)) path.now readdir }
{
    let k = path_calls::judge_reach(m, n, path)?;
    readdir_own(m, n, k)
}

// readdir: it waits for the listing.
pub fn begin_readdir(m: &mut [u8], path: &[u8], request: &mut [u8]) -> Outcome
    requires { HasRoot m.old × IsMemory m.old × HoldsRequest request.old }
    ensures { BeginsPath m request path.now readdir result }
{
    let g = Guard::load(m);
    let judged = judge_readdir(m, g.nodes, path);
    path_calls::begin_on_node(
        m,
        judged,
        guard_state::calls::LISTING,
        kinds::READDIR,
        0,
        path,
        request,
    )
}

// A listing's entry up to its name: id, kind and the name's length.
const ENTRY_FRONT: usize = Guard::ID_BYTES + 2;

// The place behind the entry at `at`, where the reply has all of it.
fn entry_end(reply: &[u8], at: usize) -> Option<usize>
    requires { at ≤ length reply.now }
    ensures { result ≡ end_within ID_BYTES reply.now at }
{
    if reply.len() - at < ENTRY_FRONT {
        return None;
    }
    let size = reply[at + Guard::ID_BYTES + 1] as usize;
    let end = at + ENTRY_FRONT + size;
    if reply.len() < end {
        return None;
    }
    Some(end)
}

// The place of the node with the id of the entry at `at`, where it is the child that the entry names.
fn entry_place(
    m: &[u8],
    n: usize,
    id: u64,
    reply: &[u8],
    at: usize,
    end: usize,
    next: usize,
    places: &mut [u8; tables::PLACES],
) -> Option<usize>
    requires { (n ≤ NODES) × IsMemory m.now × (end ≡ entry_end ID_BYTES reply.now at) × (end ≤ length reply.now) }
    ensures place { sound_nodes ID_BYTES (nodes_of n m.now) ≡ true
        → result ≡ found n (entry_place (nodes_of n m.now) id (entry_at ID_BYTES reply.now at)) }
    ensures within { IfSome result (λ k. k < n) }
{
    let entry_id = numbers::number_at(reply, at, Guard::ID_BYTES);
    let k = tables::find_listed(m, n, entry_id, next, places)?;
    if reply[at + Guard::ID_BYTES] != memory::node_kind(m, k) {
        return None;
    }
    let start = at + ENTRY_FRONT;
    if !memory::is_child(m, k, id, &reply[start..end]) {
        return None;
    }
    Some(k)
}

// A listing of the children of the node with this id: 7 unless each has one entry. Ids differ among sound nodes, so
// each entry has one place. `next` is the place behind the last entry's: children that stand together, listed in their
// order, need no table of places.
fn judge_listing(m: &[u8], n: usize, id: u64, reply: &[u8]) -> Result<(), StopReason>
    requires { (n ≤ NODES) × IsMemory m.now }
    ensures { sound_nodes ID_BYTES (nodes_of n m.now) ≡ true → (k o : ℕ) → (node_at (nodes_of n m.now) k).id ≡ id
        → reason_or_0 result ≡ reason_for (tables_in n o (was m.now)) reply.now (asked (listing k)) }
{
    let mut seen = [0u8; Guard::NODES];
    let mut places = [0u8; tables::PLACES];
    let mut count = 0;
    let mut at = 0;
    let mut next = 0;
    // the entries before `at` are right, `count` of them; where an entry ends, its bytes say
    while at < reply.len() {
        let Some(end) = entry_end(reply, at) else {
            return Err(StopReason::Listing);
        };
        let Some(k) = entry_place(m, n, id, reply, at, end, next, &mut places) else {
            return Err(StopReason::Listing);
        };
        if seen[k] != 0 {
            return Err(StopReason::Listing);
        }
        seen[k] = 1;
        count += 1;
        at = end;
        next = k + 1;
    }
    if count != tables::count_children(m, n, id) {
        return Err(StopReason::Listing);
    }
    Ok(())
}

// readdir: done with the number of entries, and the reply's bytes. A right listing is no longer than the answer buffer.
pub fn accept_listing(m: &mut [u8], reply: &[u8], answer: &mut [u8]) -> Outcome
    requires { ((numbers_in m.old).call ≡ LISTING) × IsMemory m.old }
    ensures { AcceptsInto m reply.now answer result }
{
    let g = Guard::load(m);
    let n = g.nodes;
    let id = memory::node_id(m, g.node);
    if let Err(reason) = judge_listing(m, n, id, reply) {
        return Outcome::Stopped(reason);
    }
    if answer.len() < reply.len() {
        return Outcome::Stopped(StopReason::Listing);
    }
    let count = tables::count_children(m, n, id);
    buffers::put(answer, 0, reply);
    guard_state::finish(m);
    Outcome::Done {
        number: count as u64,
        length: reply.len(),
    }
}
