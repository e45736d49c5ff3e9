// create and mkdir: a new name judged, the host asked for the node, its id judged, the node added.
#![tactic(auto)]

ghost use Rattle.std.specs.Prelude.{List, ◌≡◌, ℕ, ◌<◌, ◌≤◌, length, drop};
ghost use Rattle.filesystem.specs.Tables.{NODES, NAME_BYTES, PATH_BYTES, node_at};
ghost use Rattle.rules.specs.Calls.{create};
ghost use Rattle.rules.specs.Requests.{asked, creating};
ghost use Rattle.refusals.specs.Numbers.{numbered, reason_or_0};
ghost use Rattle.memory.specs.Memories.{IsMemory, nodes_of, was};
ghost use Rattle.tables.specs.View.{tables_in};
ghost use Rattle.guard_state.specs.Calls.{CREATING};
ghost use Rattle.guard_state.specs.State.{HasRoot, numbers_in};
ghost use Rattle.outcomes.specs.Clauses.{Accepts};
ghost use Rattle.outcomes.specs.Sent.{Asks};
ghost use Rattle.call_reader.specs.Meaning.{made_by};
ghost use Rattle.requests.specs.PathRequests.{path_request};
ghost use Rattle.requests.specs.Room.{HoldsRequest};
ghost use Rattle.path_calls.specs.Begun.{BeginsPath};
ghost use Rattle.path_calls.specs.Judged.{place_for};
ghost use Rattle.replies.specs.Judged.{reason_for};
ghost use Rattle.creations.specs.NameChecks.{name_own, new_own};

use guard_state::Guard;
use outcomes::Outcome;
use paths::Place;
use refusals::{Refusal, StopReason};

// A new name in directory d, from `at` on in the path's bytes: 17, 13 (the directory's bit 2), 28.
fn name_own(m: &[u8], n: usize, d: usize, at: usize, name: &[u8]) -> Result<Place, Refusal>
    requires { (d < n) × (n ≤ NODES) × IsMemory m.now }
    ensures { numbered result ≡ name_own (nodes_of n m.now) d at name.now }
{
    if tables::find_child(m, n, memory::node_id(m, d), name).is_some() {
        return Err(Refusal::Exists);
    }
    if memory::node_mode(m, d) / 2 % 2 != 1 {
        return Err(Refusal::Denied);
    }
    if Guard::NODES <= n {
        return Err(Refusal::NoSpace);
    }
    Ok(Place {
        parent: d,
        start: at,
    })
}

// The same from the way to that directory on; the root is there already.
fn new_own(m: &[u8], n: usize, path: &[u8]) -> Result<Place, Refusal>
    requires { (0 < n) × (n ≤ NODES) × IsMemory m.now }
    ensures { numbered result ≡ new_own (nodes_of n m.now) path.now }
{
    match paths::walk_parent(m, n, path)? {
        Some(place) => name_own(m, n, place.parent, place.start, &path[place.start..]),
        None => Err(Refusal::Exists),
    }
}

// create and mkdir: 22, 36, the way's 20, 13, 2, then their own.
fn judge_new(m: &[u8], n: usize, path: &[u8]) -> Result<Place, Refusal>
    requires { (0 < n) × (n ≤ NODES) × IsMemory m.now }
    ensures { (o mode : ℕ) → numbered result ≡ place_for (tables_in n o (was m.now)) path.now (create mode) }
{
    paths::form(path)?;
    new_own(m, n, path)
}

// A create or a mkdir that passed: it waits with its parent's id and its name, and its request goes out.
fn send_new(
    m: &mut [u8],
    kind: u8,
    number: u8,
    parent: usize,
    path: &[u8],
    start: usize,
    request: &mut [u8],
) -> Outcome
    requires { (parent < NODES) × (start ≤ length path.now) × (length (drop start path.now) ≤ NAME_BYTES)
        × (length path.now ≤ PATH_BYTES) × IsMemory m.old × HoldsRequest request.old }
    ensures { Asks m request
        (asked (creating (node_at (was m.old).nodes parent).id kind number (drop start path.now)))
        (path_request kind number path.now) result }
{
    let id = memory::node_id(m, parent);
    guard_state::wait_create(m, id, kind, number, &path[start..]);
    let l = requests::write_path(request, kind, number, path);
    Outcome::Ask(l)
}

// create 1 and mkdir 2, by their mode and path's bytes.
pub fn begin_new(m: &mut [u8], kind: u8, mode: u8, path: &[u8], request: &mut [u8]) -> Outcome
    requires { (1 ≤ kind) × (kind ≤ 2) × HasRoot m.old × IsMemory m.old × HoldsRequest request.old }
    ensures { BeginsPath m request path.now (made_by kind mode) result }
{
    let g = Guard::load(m);
    match judge_new(m, g.nodes, path) {
        Ok(place) => send_new(m, kind, mode, place.parent, path, place.start, request),
        Err(refusal) => Outcome::Refused(refusal),
    }
}

// A new node's id: 1 of another length, 3 where it is 0 or a node has it.
fn judge_id(m: &[u8], n: usize, reply: &[u8]) -> Result<(), StopReason>
    requires { (n ≤ NODES) × IsMemory m.now }
    ensures { (parent kind mode : ℕ) (name : List ℕ) (o : ℕ)
        → reason_or_0 result ≡ reason_for (tables_in n o (was m.now)) reply.now
        (asked (creating parent kind mode name)) }
{
    if reply.len() != Guard::ID_BYTES {
        return Err(StopReason::Length);
    }
    let id = numbers::number_at(reply, 0, Guard::ID_BYTES);
    if id == 0 {
        return Err(StopReason::Id);
    }
    if tables::find_id(m, n, id).is_some() {
        return Err(StopReason::Id);
    }
    Ok(())
}

// create and mkdir: one more node, behind the others, with the staged name; done with its id. Or the disk is full: -28
// is no id.
pub fn accept_create(m: &mut [u8], reply: &[u8]) -> Outcome
    requires { ((numbers_in m.old).call ≡ CREATING) × IsMemory m.old }
    ensures { Accepts m reply.now result }
{
    if replies::is_full(reply) {
        return replies::give_up(m);
    }
    let g = Guard::load(m);
    let nodes = g.nodes;
    if let Err(reason) = judge_id(m, nodes, reply) {
        return Outcome::Stopped(reason);
    }
    if Guard::NODES <= nodes {
        return Outcome::Stopped(StopReason::Id);
    }
    if Guard::NAME_BYTES < g.bytes {
        return Outcome::Stopped(StopReason::Id);
    }
    let id = numbers::number_at(reply, 0, Guard::ID_BYTES);
    let row = memory::node_row(
        id,
        g.parent,
        (g.kind % 256) as u8,
        (g.mode % 256) as u8,
        0,
        memory::staged(m, 0, g.bytes),
    );
    tables::add_node(m, nodes, row);
    guard_state::rest(m, nodes + 1, g.opens);
    Outcome::Done {
        number: id,
        length: 0,
    }
}
