// open, close and seek: judged, the host asked for a descriptor or told of the close; a seek is done at once.
#![tactic(auto)]

ghost use Rattle.std.specs.Prelude.{◌≡◌, ℕ, ◌<◌, ◌≤◌, OnOk};
ghost use Rattle.filesystem.specs.Tables.{NODES, open_at};
ghost use Rattle.rules.specs.Calls.{open_as, close, seek};
ghost use Rattle.rules.specs.Requests.{asked, closing, close_request, opening};
ghost use Rattle.refusals.specs.Numbers.{numbered, reason_or_0};
ghost use Rattle.memory.specs.Layout.{open_rows};
ghost use Rattle.memory.specs.Memories.{IsMemory, was};
ghost use Rattle.tables.specs.View.{tables_in};
ghost use Rattle.guard_state.specs.Calls.{OPENING, CLOSING};
ghost use Rattle.guard_state.specs.State.{numbers_in, HasRoot};
ghost use Rattle.guard_state.specs.Waits.{Turns};
ghost use Rattle.outcomes.specs.Clauses.{Accepts, Begins, Finishes};
ghost use Rattle.outcomes.specs.Sent.{Asks};
ghost use Rattle.requests.specs.Room.{HoldsRequest};
ghost use Rattle.path_calls.specs.Begun.{BeginsPath};
ghost use Rattle.path_calls.specs.Judged.{node_for};
ghost use Rattle.handle_calls.specs.Judged.{Judgement};
ghost use Rattle.replies.specs.Judged.{reason_for};
ghost use Rattle.opens.specs.Moved.{cursor_moved};
ghost use Rattle.opens.specs.OpenChecks.{open_own};

use guard_state::Guard;
use handle_calls::Handled;
use limits::kinds;
use outcomes::Outcome;
use refusals::{Refusal, StopReason};

// open on node k: 21, 13, 16, 24.
fn open_own(m: &[u8], n: usize, o: usize, k: usize, rights: u8) -> Result<usize, Refusal>
    requires { (k < n) × (n ≤ NODES) × (o ≤ open_rows) × IsMemory m.now }
    ensures { numbered result ≡ open_own (tables_in n o (was m.now)) k rights }
{
    if memory::node_kind(m, k) == limits::DIRECTORY {
        return Err(Refusal::IsDirectory);
    }
    if !paths::covers(memory::node_mode(m, k), rights) {
        return Err(Refusal::Denied);
    }
    if tables::find_handle(m, o, memory::node_id(m, k)).is_some() {
        return Err(Refusal::Busy);
    }
    if Guard::OPEN_FILES <= o {
        return Err(Refusal::TooManyOpen);
    }
    Ok(k)
}

// open: stat's numbers, then its own.
fn judge_open(m: &[u8], n: usize, o: usize, path: &[u8], rights: u8) -> Result<usize, Refusal>
    requires { (0 < n) × (n ≤ NODES) × (o ≤ open_rows) × IsMemory m.now }
    ensures { numbered result ≡ node_for (tables_in n o (was m.now)) path.now (open_as rights) }
{
    let k = path_calls::judge_reach(m, n, path)?;
    open_own(m, n, o, k, rights)
}

// open: it waits for a descriptor.
pub fn begin_open(m: &mut [u8], rights: u8, path: &[u8], request: &mut [u8]) -> Outcome
    requires { HasRoot m.old × IsMemory m.old × HoldsRequest request.old }
    ensures { BeginsPath m request path.now (open_as rights) result }
{
    let g = Guard::load(m);
    let judged = judge_open(m, g.nodes, g.opens, path, rights);
    path_calls::begin_on_node(
        m,
        judged,
        guard_state::calls::OPENING,
        kinds::OPEN,
        rights,
        path,
        request,
    )
}

// A new descriptor: 1 of another length, 4 where it is out of range or an open file has it.
fn judge_descriptor(m: &[u8], o: usize, reply: &[u8]) -> Result<(), StopReason>
    requires { (o ≤ open_rows) × IsMemory m.now }
    ensures { (k rights n : ℕ) → reason_or_0 result ≡ reason_for (tables_in n o (was m.now)) reply.now
        (asked (opening k rights)) }
{
    if reply.len() != 4 {
        return Err(StopReason::Length);
    }
    let d = numbers::i32_at(reply, 0);
    if d < 0 {
        return Err(StopReason::Descriptor);
    }
    if Guard::DESCRIPTORS as i32 <= d {
        return Err(StopReason::Descriptor);
    }
    if tables::find_descriptor(m, o, d as u32).is_some() {
        return Err(StopReason::Descriptor);
    }
    Ok(())
}

// open: one more open file, at its beginning; done with its id, which is its handle.
pub fn accept_open(m: &mut [u8], reply: &[u8]) -> Outcome
    requires { ((numbers_in m.old).call ≡ OPENING) × IsMemory m.old }
    ensures { Accepts m reply.now result }
{
    let g = Guard::load(m);
    let o = g.opens;
    if let Err(reason) = judge_descriptor(m, o, reply) {
        return Outcome::Stopped(reason);
    }
    if memory::OPEN_ROWS <= o {
        return Outcome::Stopped(StopReason::Descriptor);
    }
    let id = memory::node_id(m, g.node);
    let row = memory::open_row(
        id,
        numbers::u32_at(reply, 0),
        (g.rights % 256) as u8,
        (g.node % Guard::NODES) as u8,
        0,
    );
    tables::add_open(m, o, row);
    guard_state::rest(m, g.nodes, o + 1);
    Outcome::Done {
        number: id,
        length: 0,
    }
}

// close: 9.
fn judge_close(m: &[u8], n: usize, o: usize, handle: u64) -> Result<Handled, Refusal>
    requires { (n ≤ NODES) × (o ≤ open_rows) × IsMemory m.now }
    ensures { Judgement m.now n o handle (close handle) (numbered result) }
{
    let Some(k) = tables::find_handle(m, o, handle) else {
        return Err(Refusal::BadHandle);
    };
    let node = handle_calls::file_place(m, n, k, handle);
    Ok(Handled { opened: k, node })
}

// A close that passed: it waits, and its request goes out.
fn send_close(m: &mut [u8], opened: usize, request: &mut [u8]) -> Outcome
    requires { (opened < open_rows) × IsMemory m.old × HoldsRequest request.old }
    ensures { Asks m request (asked (closing opened)) (close_request (open_at (was m.old).opens opened).descriptor) result }
{
    let d = memory::open_descriptor(m, opened);
    guard_state::wait_close(m, opened);
    let l = requests::write_close(request, d);
    Outcome::Ask(l)
}

pub fn begin_close(m: &mut [u8], handle: u64, request: &mut [u8]) -> Outcome
    requires { IsMemory m.old × HoldsRequest request.old }
    ensures { Begins m request (close handle) result }
{
    let g = Guard::load(m);
    match judge_close(m, g.nodes, g.opens, handle) {
        Ok(file) => send_close(m, file.opened, request),
        Err(refusal) => Outcome::Refused(refusal),
    }
}

// close: the open file is taken out.
pub fn accept_close(m: &mut [u8], reply: &[u8]) -> Outcome
    requires { ((numbers_in m.old).call ≡ CLOSING) × IsMemory m.old }
    ensures { Accepts m reply.now result }
{
    if let Err(reason) = replies::judge_status(reply, 0) {
        return Outcome::Stopped(reason);
    }
    let g = Guard::load(m);
    let o = g.opens;
    let k = g.opened;
    if o <= k {
        return Outcome::Stopped(StopReason::Status);
    }
    tables::remove_open(m, o, k);
    guard_state::rest(m, g.nodes, o - 1);
    Outcome::Done {
        number: 0,
        length: 0,
    }
}

// seek: 9, 22 past the end.
fn judge_seek(m: &[u8], n: usize, o: usize, handle: u64, position: u64) -> Result<Handled, Refusal>
    requires { (n ≤ NODES) × (o ≤ open_rows) × IsMemory m.now }
    ensures judgement { Judgement m.now n o handle (seek handle position) (numbered result) }
    ensures fits { OnOk result (position < 4294967296) }
{
    let Some(k) = tables::find_handle(m, o, handle) else {
        return Err(Refusal::BadHandle);
    };
    handle_calls::judge_end(m, n, handle, k, position)
}

// The cursor of an open file is set, and the call is done.
fn end_at(m: &mut [u8], opened: usize, position: u32)
    requires { (opened < (numbers_in m.old).opens) × (opened < open_rows) × IsMemory m.old }
    ensures { Turns m (λ c s. cursor_moved c s opened position) }
{
    memory::set_cursor(m, opened, position);
    guard_state::finish(m);
}

// A seek asks nothing of the host: no request buffer is touched.
pub fn finish_seek(m: &mut [u8], handle: u64, position: u64) -> Outcome
    requires { IsMemory m.old }
    ensures { Finishes m (seek handle position) result }
{
    let g = Guard::load(m);
    match judge_seek(m, g.nodes, g.opens, handle, position) {
        Ok(file) => {
            end_at(m, file.opened, position as u32);
            Outcome::Done {
                number: position,
                length: 0,
            }
        }
        Err(refusal) => Outcome::Refused(refusal),
    }
}
