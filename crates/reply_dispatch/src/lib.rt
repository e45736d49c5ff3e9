// A reply, whatever its bytes are, taken by the pending call: the guard stops, the next request goes out, or the call
// is done.
#![tactic(auto)]

ghost use Rattle.std.specs.Prelude.{◌≡◌, ◌≤◌, length};
ghost use Rattle.filesystem.specs.Tables.{DATA_BYTES};
ghost use Rattle.memory.specs.Memories.{IsMemory};
ghost use Rattle.guard_state.specs.Calls.{CREATING, CHANGING, FETCHING, GROWING, MAPPING, UNMAPPING};
ghost use Rattle.guard_state.specs.State.{numbers_in};
ghost use Rattle.outcomes.specs.Clauses.{Accepts, AcceptsAsking, AcceptsPending};
ghost use Rattle.requests.specs.Room.{HoldsRequest};

use guard_state::{Guard, calls};
use outcomes::Outcome;
use refusals::Refusal;

// create and mkdir, open, close, remove and rmdir, chmod: the answer has no bytes.
fn accept_change(m: &mut [u8], call: u64, reply: &[u8]) -> Outcome
    requires { (call ≡ (numbers_in m.old).call) × (CREATING ≤ call) × (call ≤ CHANGING) × IsMemory m.old }
    ensures { Accepts m reply.now result }
{
    match call {
        calls::CREATING => creations::accept_create(m, reply),
        calls::OPENING => opens::accept_open(m, reply),
        calls::CLOSING => opens::accept_close(m, reply),
        calls::REMOVING => removals::accept_remove(m, reply),
        _ => attributes::accept_chmod(m, reply),
    }
}

// A write's page fetched or stored; a truncation's page fetched or stored, its file cut, to fewer bytes or to more.
fn accept_page_change(m: &mut [u8], call: u64, reply: &[u8], request: &mut [u8]) -> Outcome
    requires { (call ≡ (numbers_in m.old).call) × (FETCHING ≤ call) × (call ≤ GROWING) × IsMemory m.old
        × HoldsRequest request.old }
    ensures { AcceptsAsking m reply.now request result }
{
    match call {
        calls::FETCHING => writes::accept_fetched(m, reply, request),
        calls::STORING => writes::accept_stored(m, reply, request),
        calls::SHRINK_FETCHING => truncations::accept_fetched(m, reply, request),
        calls::SHRINK_STORING => truncations::accept_stored(m, reply, request),
        calls::CUTTING => truncations::accept_cut(m, reply),
        _ => truncations::accept_growth(m, reply),
    }
}

// A map, and its end.
fn accept_on_maps(m: &mut [u8], call: u64, reply: &[u8]) -> Outcome
    requires { (call ≡ (numbers_in m.old).call) × (MAPPING ≤ call) × (call ≤ UNMAPPING) × IsMemory m.old }
    ensures { Accepts m reply.now result }
{
    match call {
        calls::MAPPING => maps::accept_map(m, reply),
        _ => maps::accept_unmap(m, reply),
    }
}

// The reply to the pending call; where none is pending there is nothing to take (61).
pub fn accept_reply(m: &mut [u8], reply: &[u8], answer: &mut [u8], request: &mut [u8]) -> Outcome
    requires { IsMemory m.old × (DATA_BYTES ≤ length answer.old) × HoldsRequest request.old }
    ensures { AcceptsPending m reply.now answer request result }
{
    let g = Guard::load(m);
    let call = g.call;
    match call {
        calls::CREATING..=calls::CHANGING => accept_change(m, call, reply),
        calls::LISTING => listings::accept_listing(m, reply, answer),
        calls::STATING => attributes::accept_stat(m, reply, answer),
        calls::READING => reads::accept_page(m, reply, answer, request),
        calls::FETCHING..=calls::GROWING => accept_page_change(m, call, reply, request),
        calls::MAPPING..=calls::UNMAPPING => accept_on_maps(m, call, reply),
        calls::LAST => renames::accept_rename(m, reply),
        _ => Outcome::Refused(Refusal::NotPending),
    }
}
