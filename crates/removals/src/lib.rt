// remove and rmdir: judged, the host told, the node taken out.
#![tactic(auto)]

ghost use Rattle.std.specs.Prelude.{◌≡◌, ℕ, ◌<◌, ◌≤◌};
ghost use Rattle.filesystem.specs.Tables.{NODES};
ghost use Rattle.rules.specs.Calls.{remove, rmdir};
ghost use Rattle.refusals.specs.Numbers.{numbered};
ghost use Rattle.memory.specs.Layout.{open_rows};
ghost use Rattle.memory.specs.Memories.{IsMemory, nodes_of, was};
ghost use Rattle.tables.specs.View.{tables_in};
ghost use Rattle.guard_state.specs.Calls.{REMOVING};
ghost use Rattle.guard_state.specs.State.{numbers_in, HasRoot};
ghost use Rattle.outcomes.specs.Clauses.{Accepts};
ghost use Rattle.requests.specs.Room.{HoldsRequest};
ghost use Rattle.path_calls.specs.Begun.{BeginsPath};
ghost use Rattle.path_calls.specs.Judged.{node_for};
ghost use Rattle.removals.specs.RemoveChecks.{remove_own, rmdir_own};

use guard_state::Guard;
use limits::kinds;
use outcomes::Outcome;
use refusals::{Refusal, StopReason};

// remove of node k in directory d: 21, 13 (the directory's bit 2), 16.
fn remove_own(m: &[u8], n: usize, o: usize, k: usize, d: usize) -> Result<usize, Refusal>
    requires { (k < n) × (d < n) × (n ≤ NODES) × (o ≤ open_rows) × IsMemory m.now }
    ensures { numbered result ≡ remove_own (tables_in n o (was m.now)) k d }
{
    if memory::node_kind(m, k) == limits::DIRECTORY {
        return Err(Refusal::IsDirectory);
    }
    if memory::node_mode(m, d) / 2 % 2 != 1 {
        return Err(Refusal::Denied);
    }
    if tables::find_handle(m, o, memory::node_id(m, k)).is_some() {
        return Err(Refusal::Busy);
    }
    Ok(k)
}

// remove: stat's numbers, then its own.
fn judge_remove(m: &[u8], n: usize, o: usize, path: &[u8]) -> Result<usize, Refusal>
    requires { (0 < n) × (n ≤ NODES) × (o ≤ open_rows) × IsMemory m.now }
    ensures { numbered result ≡ node_for (tables_in n o (was m.now)) path.now remove }
{
    let way = path_calls::judge_way(m, n, path)?;
    remove_own(m, n, o, way.node, way.parent)
}

// remove: it waits for the status.
pub fn begin_remove(m: &mut [u8], path: &[u8], request: &mut [u8]) -> Outcome
    requires { HasRoot m.old × IsMemory m.old × HoldsRequest request.old }
    ensures { BeginsPath m request path.now remove result }
{
    let g = Guard::load(m);
    let judged = judge_remove(m, g.nodes, g.opens, path);
    path_calls::begin_on_node(
        m,
        judged,
        guard_state::calls::REMOVING,
        kinds::REMOVE,
        0,
        path,
        request,
    )
}

// rmdir of node k in directory d: 16 (the root), 20, 13 (the directory's bit 2), 39.
fn rmdir_own(m: &[u8], n: usize, k: usize, d: usize) -> Result<usize, Refusal>
    requires { (k < n) × (d < n) × (n ≤ NODES) × IsMemory m.now }
    ensures { numbered result ≡ rmdir_own (nodes_of n m.now) k d }
{
    if k == 0 {
        return Err(Refusal::Busy);
    }
    if memory::node_kind(m, k) != limits::DIRECTORY {
        return Err(Refusal::NotDirectory);
    }
    if memory::node_mode(m, d) / 2 % 2 != 1 {
        return Err(Refusal::Denied);
    }
    if 0 < tables::count_children(m, n, memory::node_id(m, k)) {
        return Err(Refusal::NotEmpty);
    }
    Ok(k)
}

// rmdir: stat's numbers, then its own.
fn judge_rmdir(m: &[u8], n: usize, path: &[u8]) -> Result<usize, Refusal>
    requires { (0 < n) × (n ≤ NODES) × IsMemory m.now }
    ensures { (o : ℕ) → numbered result ≡ node_for (tables_in n o (was m.now)) path.now rmdir }
{
    let way = path_calls::judge_way(m, n, path)?;
    rmdir_own(m, n, way.node, way.parent)
}

// rmdir: the same, and readdir is begun so too: each names what judges it and its constants, and promises another
// call.
pub fn begin_rmdir(m: &mut [u8], path: &[u8], request: &mut [u8]) -> Outcome
    requires { HasRoot m.old × IsMemory m.old × HoldsRequest request.old }
    ensures { BeginsPath m request path.now rmdir result }
{
    let g = Guard::load(m);
    let judged = judge_rmdir(m, g.nodes, path);
    path_calls::begin_on_node(
        m,
        judged,
        guard_state::calls::REMOVING,
        kinds::RMDIR,
        0,
        path,
        request,
    )
}

// remove and rmdir: the node is taken out, and its digests.
pub fn accept_remove(m: &mut [u8], reply: &[u8]) -> Outcome
    requires { ((numbers_in m.old).call ≡ REMOVING) × IsMemory m.old }
    ensures { Accepts m reply.now result }
{
    if let Err(reason) = replies::judge_status(reply, 0) {
        return Outcome::Stopped(reason);
    }
    let g = Guard::load(m);
    let n = g.nodes;
    let k = g.node;
    if n <= k {
        return Outcome::Stopped(StopReason::Status);
    }
    if Guard::PAGES < tables::first_page(m, n) {
        return Outcome::Stopped(StopReason::Status);
    }
    tables::remove_node(m, n, k);
    guard_state::rest(m, n - 1, g.opens);
    Outcome::Done {
        number: 0,
        length: 0,
    }
}
