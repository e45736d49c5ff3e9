// rename: both paths judged, the host told, the node's parent and name changed.
#![tactic(auto)]

ghost use Rattle.std.specs.Prelude.{true, ◌≡◌, ℕ, ◌<◌, ◌≤◌, length, drop};
ghost use Rattle.filesystem.specs.Tables.{NODES, NAME_BYTES, PATH_BYTES, node_at, is_directory};
ghost use Rattle.filesystem.specs.Image.{length_in, sound_nodes};
ghost use Rattle.rules.specs.Requests.{asked, renaming};
ghost use Rattle.refusals.specs.Numbers.{numbered};
ghost use Rattle.memory.specs.Memories.{IsMemory, nodes_of, was};
ghost use Rattle.tables.specs.View.{tables_in};
ghost use Rattle.guard_state.specs.Calls.{RENAMING};
ghost use Rattle.guard_state.specs.State.{numbers_in};
ghost use Rattle.outcomes.specs.Clauses.{Accepts};
ghost use Rattle.guard_state.specs.Waits.{Turns, ends};
ghost use Rattle.outcomes.specs.declared.Outcome.TheVariants.{Done};
ghost use Rattle.outcomes.specs.Sent.{Asks};
ghost use Rattle.requests.specs.PathRequests.{rename_request};
ghost use Rattle.requests.specs.Room.{HoldsRequest};
ghost use Rattle.renames.specs.Judged.{name_own, root_name, second_own, walks_own, renaming_for};
ghost use Rattle.renames.specs.Judged.{Short, Moves, Fits, FitsBoth};
ghost use Rattle.renames.specs.Begun.{BeginsRename};

use guard_state::Guard;
use outcomes::Outcome;
use refusals::{Refusal, StopReason};

// What a rename is to do: the node becomes what the second path has from `start` on, in the directory in place
// `parent`.
#[derive(Clone, Copy, PartialEq, Eq)]
pub struct Move {
    pub node: usize,
    pub parent: usize,
    pub start: usize,
}

// Of node k, which the directory in place `from` holds, to the name that stands from `at` on in the second path, in
// directory d: 16 (the root), no move if that is node k, 17, 22, 13, 36.
fn judge_name(
    m: &[u8],
    n: usize,
    k: usize,
    from: usize,
    d: usize,
    at: usize,
    name: &[u8],
) -> Result<Option<Move>, Refusal>
    requires { (k < n) × (from < n) × (d < n) × (n ≤ NODES) × (length name.now ≤ NAME_BYTES) × IsMemory m.now }
    ensures by_index { (w : ℕ) → sound_nodes w (nodes_of n m.now) ≡ true → is_directory (node_at (nodes_of n m.now) d) ≡ true
        → length_in (nodes_of n m.now) d name.now ≤ PATH_BYTES
        → numbered result ≡ name_own (nodes_of n m.now) k from d at name.now }
    ensures moves { Moves (numbered result) k d at }
{
    if k == 0 {
        return Err(Refusal::Busy);
    }
    if let Some(j) = tables::find_child(m, n, memory::node_id(m, d), name) {
        if j == k {
            return Ok(None);
        }
        return Err(Refusal::Exists);
    }
    moves::judge_move(m, n, k, from, d, name)?;
    Ok(Some(Move {
        node: k,
        parent: d,
        start: at,
    }))
}

// To the root's own path: 16 of the root, 17.
fn root_name(k: usize) -> Result<Option<Move>, Refusal>
    ensures { numbered result ≡ root_name k }
{
    if k == 0 {
        return Err(Refusal::Busy);
    }
    Err(Refusal::Exists)
}

// The same from the way to that directory on; the root's own name is taken.
fn judge_second(
    m: &[u8],
    n: usize,
    k: usize,
    from: usize,
    second: &[u8],
) -> Result<Option<Move>, Refusal>
    requires { (k < n) × (from < n) × (n ≤ NODES) × Short second.now × IsMemory m.now }
    ensures by_index { (w : ℕ) → sound_nodes w (nodes_of n m.now) ≡ true
        → numbered result ≡ second_own (nodes_of n m.now) k from second.now }
    ensures fits { Fits (numbered result) n second.now }
{
    match paths::walk_parent(m, n, second)? {
        Some(place) => {
            let name = &second[place.start..];
            judge_name(m, n, k, from, place.parent, place.start, name)
        }
        None => root_name(k),
    }
}

// Both walks, the first first.
fn judge_walks(m: &[u8], n: usize, first: &[u8], second: &[u8]) -> Result<Option<Move>, Refusal>
    requires { (0 < n) × (n ≤ NODES) × Short second.now × IsMemory m.now }
    ensures by_index { (w : ℕ) → sound_nodes w (nodes_of n m.now) ≡ true
        → numbered result ≡ walks_own (nodes_of n m.now) first.now second.now }
    ensures fits { Fits (numbered result) n second.now }
{
    let way = path_calls::walk_both(m, n, first)?;
    judge_second(m, n, way.node, way.parent, second)
}

// 22 and 36 of both paths first.
fn judge_rename(m: &[u8], n: usize, first: &[u8], second: &[u8]) -> Result<Option<Move>, Refusal>
    requires { (0 < n) × (n ≤ NODES) × IsMemory m.now }
    ensures by_index { (w o : ℕ) → sound_nodes w (nodes_of n m.now) ≡ true
        → numbered result ≡ renaming_for (tables_in n o (was m.now)) first.now second.now }
    ensures fits_both { FitsBoth (numbered result) n first.now second.now }
{
    paths::forms(first, second)?;
    judge_walks(m, n, first, second)
}

// A rename that passed: it waits with its node, the new parent's id and the new name, and goes out as it came.
fn send_rename(
    m: &mut [u8],
    node: usize,
    parent: usize,
    first: &[u8],
    second: &[u8],
    start: usize,
    request: &mut [u8],
) -> Outcome
    requires { (node < NODES) × (parent < NODES) × (start ≤ length second.now)
        × (length (drop start second.now) ≤ NAME_BYTES) × (length first.now ≤ PATH_BYTES)
        × (length second.now ≤ PATH_BYTES) × IsMemory m.old × HoldsRequest request.old }
    ensures { Asks m request
        (asked (renaming node (node_at (was m.old).nodes parent).id (drop start second.now)))
        (rename_request first.now second.now) result }
{
    let id = memory::node_id(m, parent);
    guard_state::wait_rename(m, node, id, &second[start..]);
    let l = requests::write_rename(request, first, second);
    Outcome::Ask(l)
}

// A node's own path: done, and nothing is sent.
fn finish_same(m: &mut [u8]) -> Outcome
    requires { IsMemory m.old }
    ensures { Turns m (λ c s. ends c s s.skeleton.tables s.contents) × (result ≡ Done 0 0) }
{
    guard_state::finish(m);
    Outcome::Done {
        number: 0,
        length: 0,
    }
}

// rename, by the bytes of both paths. A memory without a node holds no guard.
pub fn begin_rename(m: &mut [u8], first: &[u8], second: &[u8], request: &mut [u8]) -> Outcome
    requires { IsMemory m.old × HoldsRequest request.old }
    ensures { BeginsRename m request first.now second.now result }
{
    let n = guard_state::node_count(m);
    if n == 0 {
        return Outcome::Refused(Refusal::ShortBuffer);
    }
    match judge_rename(m, n, first, second) {
        Ok(Some(it)) => send_rename(m, it.node, it.parent, first, second, it.start, request),
        Ok(None) => finish_same(m),
        Err(refusal) => Outcome::Refused(refusal),
    }
}

// rename: the node's row has the new parent and name, all else of it stays.
pub fn accept_rename(m: &mut [u8], reply: &[u8]) -> Outcome
    requires { ((numbers_in m.old).call ≡ RENAMING) × IsMemory m.old }
    ensures { Accepts m reply.now result }
{
    if let Err(reason) = replies::judge_status(reply, 0) {
        return Outcome::Stopped(reason);
    }
    let g = Guard::load(m);
    if Guard::NAME_BYTES < g.bytes {
        return Outcome::Stopped(StopReason::Status);
    }
    let k = g.node;
    let row = memory::node_row(
        memory::node_id(m, k),
        g.parent,
        memory::node_kind(m, k),
        memory::node_mode(m, k),
        memory::node_size(m, k),
        memory::staged(m, 0, g.bytes),
    );
    memory::put_node(m, k, row);
    guard_state::finish(m);
    Outcome::Done {
        number: 0,
        length: 0,
    }
}
