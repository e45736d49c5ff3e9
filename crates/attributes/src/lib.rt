// chmod and stat: judged, the host told or asked; a mode is set, a stat compared with the tables and handed on.
#![tactic(auto)]

ghost use Rattle.std.specs.Prelude.{◌∷◌, ◌++◌, ◌≡◌, ℕ, ◌<◌, ◌≤◌};
ghost use Rattle.lists.specs.LittleEndian.{encode};
ghost use Rattle.filesystem.specs.Tables.{NODES, ID_BYTES};
ghost use Rattle.rules.specs.Calls.{stat, chmod};
ghost use Rattle.rules.specs.Requests.{asked, stating};
ghost use Rattle.refusals.specs.Numbers.{reason_or_0};
ghost use Rattle.memory.specs.Memories.{IsMemory, was};
ghost use Rattle.tables.specs.View.{tables_in};
ghost use Rattle.guard_state.specs.Calls.{CHANGING, STATING};
ghost use Rattle.guard_state.specs.State.{numbers_in, HasRoot};
ghost use Rattle.outcomes.specs.Clauses.{Accepts, AcceptsInto};
ghost use Rattle.requests.specs.Room.{HoldsRequest};
ghost use Rattle.path_calls.specs.Begun.{BeginsPath};
ghost use Rattle.replies.specs.Judged.{reason_for};

use guard_state::Guard;
use limits::kinds;
use outcomes::Outcome;
use refusals::StopReason;

// chmod: it waits for the status.
pub fn begin_chmod(m: &mut [u8], mode: u8, path: &[u8], request: &mut [u8]) -> Outcome
    requires { HasRoot m.old × IsMemory m.old × HoldsRequest request.old }
    ensures { BeginsPath m request path.now (chmod mode) result }
{
    let g = Guard::load(m);
    let judged = path_calls::judge_reach(m, g.nodes, path);
    path_calls::begin_on_node(
        m,
        judged,
        guard_state::calls::CHANGING,
        kinds::CHMOD,
        mode,
        path,
        request,
    )
}

// chmod: the node has the new mode.
pub fn accept_chmod(m: &mut [u8], reply: &[u8]) -> Outcome
    requires { ((numbers_in m.old).call ≡ CHANGING) × IsMemory m.old }
    ensures { Accepts m reply.now result }
{
    if let Err(reason) = replies::judge_status(reply, 0) {
        return Outcome::Stopped(reason);
    }
    let g = Guard::load(m);
    memory::set_mode(m, g.node, (g.mode % 256) as u8);
    guard_state::finish(m);
    Outcome::Done {
        number: 0,
        length: 0,
    }
}

// stat: it waits for the host's own. What it shares with chmod is `judge_reach` and `begin_on_node`; one function for
// both would need a premise that says which call, kind and number belong together.
pub fn begin_stat(m: &mut [u8], path: &[u8], request: &mut [u8]) -> Outcome
    requires { HasRoot m.old × IsMemory m.old × HoldsRequest request.old }
    ensures { BeginsPath m request path.now stat result }
{
    let g = Guard::load(m);
    let judged = path_calls::judge_reach(m, g.nodes, path);
    path_calls::begin_on_node(
        m,
        judged,
        guard_state::calls::STATING,
        kinds::STAT,
        0,
        path,
        request,
    )
}

// A stat: id, kind, mode and size.
const STAT_BYTES: usize = Guard::ID_BYTES + 6;

fn stat_row(id: u64, kind: u8, mode: u8, size: u32) -> [u8; STAT_BYTES]
    ensures { result ≡ encode ID_BYTES id ++ (kind ∷ mode ∷ encode 4 size) }
{
    let mut r = [0u8; STAT_BYTES];
    numbers::put_number(&mut r, 0, Guard::ID_BYTES, id);
    r[Guard::ID_BYTES] = kind;
    r[Guard::ID_BYTES + 1] = mode;
    numbers::put_number(&mut r, Guard::ID_BYTES + 2, 4, size as u64);
    r
}

// The stat of node k: 1 of another length, 6 where a field differs.
fn judge_stat(m: &[u8], n: usize, k: usize, reply: &[u8]) -> Result<(), StopReason>
    requires { (k < n) × (n ≤ NODES) × IsMemory m.now }
    ensures { (o : ℕ) → reason_or_0 result ≡ reason_for (tables_in n o (was m.now)) reply.now (asked (stating k)) }
{
    if reply.len() != STAT_BYTES {
        return Err(StopReason::Length);
    }
    let row = stat_row(
        memory::node_id(m, k),
        memory::node_kind(m, k),
        memory::node_mode(m, k),
        memory::node_size(m, k),
    );
    if !buffers::same(reply, &row) {
        return Err(StopReason::Stat);
    }
    Ok(())
}

// stat: done with the size, and the reply's bytes.
pub fn accept_stat(m: &mut [u8], reply: &[u8], answer: &mut [u8]) -> Outcome
    requires { ((numbers_in m.old).call ≡ STATING) × IsMemory m.old }
    ensures { AcceptsInto m reply.now answer result }
{
    let g = Guard::load(m);
    let n = g.nodes;
    let k = g.node;
    if n <= k {
        return Outcome::Stopped(StopReason::Stat);
    }
    if let Err(reason) = judge_stat(m, n, k, reply) {
        return Outcome::Stopped(reason);
    }
    if answer.len() < reply.len() {
        return Outcome::Stopped(StopReason::Stat);
    }
    let size = memory::node_size(m, k);
    buffers::put(answer, 0, reply);
    guard_state::finish(m);
    Outcome::Done {
        number: size as u64,
        length: reply.len(),
    }
}
