// What calls by path share: the walk judged (SPECIFICATION 7.4), and a call on a node that is there begun.
#![tactic(auto)]

ghost use Rattle.std.specs.Prelude.{◌≡◌, ℕ, ◌<◌, ◌≤◌, length};
ghost use Rattle.filesystem.specs.Tables.{NODES, PATH_BYTES};
ghost use Rattle.rules.specs.Calls.{stat};
ghost use Rattle.rules.specs.Requests.{asked};
ghost use Rattle.refusals.specs.Numbers.{numbered};
ghost use Rattle.memory.specs.Memories.{IsMemory, nodes_of, was};
ghost use Rattle.tables.specs.View.{tables_in};
ghost use Rattle.guard_state.specs.Calls.{OnNode, question_on};
ghost use Rattle.outcomes.specs.Sent.{Asks};
ghost use Rattle.paths.specs.Parts.{components_of};
ghost use Rattle.paths.specs.Walks.{child_step};
ghost use Rattle.requests.specs.PathRequests.{path_request};
ghost use Rattle.requests.specs.Room.{HoldsRequest};
ghost use Rattle.path_calls.specs.Begun.{BeginsAs, Reaches};
ghost use Rattle.path_calls.specs.Judged.{node_for, way_for};
ghost use Rattle.path_calls.specs.Ways.{way_of, walked_both};

use outcomes::Outcome;
use refusals::Refusal;

// Where a path leads: the places of its node and of the directory that holds it.
#[derive(Clone, Copy, PartialEq, Eq)]
pub struct Way {
    pub node: usize,
    pub parent: usize,
}

// chmod and stat: 22, 36, then the walk's 20, 13, 2.
pub fn judge_reach(m: &[u8], n: usize, path: &[u8]) -> Result<usize, Refusal>
    requires { (0 < n) × (n ≤ NODES) × IsMemory m.now }
    ensures { (o : ℕ) → numbered result ≡ node_for (tables_in n o (was m.now)) path.now stat }
{
    paths::form(path)?;
    paths::walk(m, n, path)
}

// The last step of a walk, from the directory in place `parent`.
fn step_from(m: &[u8], n: usize, parent: usize, name: &[u8]) -> Result<Way, Refusal>
    requires { (parent < n) × (n ≤ NODES) × IsMemory m.now }
    ensures { numbered result ≡ way_of parent (child_step (nodes_of n m.now) parent name.now) }
{
    let node = paths::last_step(m, n, parent, name)?;
    Ok(Way { node, parent })
}

// A walk that keeps the directory of its last step; the root holds itself.
pub fn walk_both(m: &[u8], n: usize, path: &[u8]) -> Result<Way, Refusal>
    requires { (0 < n) × (n ≤ NODES) × IsMemory m.now }
    ensures { numbered result ≡ walked_both (nodes_of n m.now) (components_of path.now) }
{
    match paths::walk_parent(m, n, path)? {
        Some(place) => step_from(m, n, place.parent, &path[place.start..]),
        None => Ok(Way { node: 0, parent: 0 }),
    }
}

// The same as a call is judged: 22 and 36 first.
pub fn judge_way(m: &[u8], n: usize, path: &[u8]) -> Result<Way, Refusal>
    requires { (0 < n) × (n ≤ NODES) × IsMemory m.now }
    ensures { (o : ℕ) → numbered result ≡ way_for (tables_in n o (was m.now)) path.now stat }
{
    paths::form(path)?;
    walk_both(m, n, path)
}

// A call on a node that passed: it waits as `call` says (guard_state::calls), and its request goes out.
fn send_on_node(
    m: &mut [u8],
    call: u64,
    kind: u8,
    number: u8,
    k: usize,
    path: &[u8],
    request: &mut [u8],
) -> Outcome
    requires { OnNode call × (k < NODES) × (length path.now ≤ PATH_BYTES) × IsMemory m.old × HoldsRequest request.old }
    ensures { Asks m request (asked (question_on call k number)) (path_request kind number path.now) result }
{
    guard_state::wait_on_node(m, call, k, number);
    let l = requests::write_path(request, kind, number, path);
    Outcome::Ask(l)
}

// A call on a node as it was judged: refused, or sent.
pub fn begin_on_node(
    m: &mut [u8],
    judged: Result<usize, Refusal>,
    call: u64,
    kind: u8,
    number: u8,
    path: &[u8],
    request: &mut [u8],
) -> Outcome
    requires { OnNode call × Reaches (numbered judged) path.now × IsMemory m.old × HoldsRequest request.old }
    ensures { BeginsAs m request path.now (numbered judged) call kind number result }
{
    match judged {
        Ok(k) => send_on_node(m, call, kind, number, k, path, request),
        Err(refusal) => Outcome::Refused(refusal),
    }
}
