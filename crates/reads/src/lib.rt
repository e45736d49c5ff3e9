// A read by handle: begun, done at once or waiting for its first page; and a page that came, judged, staged or put into
// the answer buffer.
#![tactic(auto)]

ghost use Rattle.std.specs.Prelude.{true, List, ◌++◌, ◌≡◌, ℕ, ◌<◌, ◌≤◌, ◌+◌, ◌*◌, length, take};
ghost use Rattle.filesystem.specs.Tables.{NODES, node_at, open_at, PAGE_BYTES, FILE_BYTES, DATA_BYTES};
ghost use Rattle.rules.specs.Calls.{read};
ghost use Rattle.rules.specs.Pages.{page_at, page_part};
ghost use Rattle.rules.specs.Requests.{reading, fetch_request};
ghost use Rattle.rules.specs.Skeleton.{Config, at_front};
ghost use Rattle.machine.specs.Machine.{apply, guard as digest_store};
ghost use Rattle.numbers.specs.Slices.{KeepsLength};
ghost use Rattle.memory.specs.Layout.{open_rows};
ghost use Rattle.memory.specs.Memories.{IsMemory, was};
ghost use Rattle.guard_state.specs.Calls.{READING};
ghost use Rattle.guard_state.specs.State.{state_of, numbers_in, file_pages};
ghost use Rattle.guard_state.specs.Waits.{Turns, ends};
ghost use Rattle.outcomes.specs.Clauses.{AcceptsBoth, Begins};
ghost use Rattle.outcomes.specs.Sent.{Sends, Asks, Fills, Leaves};
ghost use Rattle.requests.specs.Room.{HoldsRequest};
ghost use Rattle.refusals.specs.Numbers.{numbered};
ghost use Rattle.handle_calls.specs.Judged.{Judgement};
ghost use Rattle.reads.specs.Begun.{read_of, left_of, cursor_to};
ghost use Rattle.reads.specs.Taken.{InRead, Gathers, page_taken};

use guard_state::Guard;
use handle_calls::Handled;
use outcomes::Outcome;
use refusals::{Refusal, StopReason};

// read: 9 without right 1.
fn judge_read(m: &[u8], n: usize, o: usize, handle: u64) -> Result<Handled, Refusal>
    requires { (n ≤ NODES) × (o ≤ open_rows) × IsMemory m.now }
    ensures { (count : ℕ) → Judgement m.now n o handle (read handle count) (numbered result) }
{
    let k = handle_calls::find_with_right(m, o, handle, 1)?;
    let node = handle_calls::file_place(m, n, k, handle);
    Ok(Handled { opened: k, node })
}

// The read waits for the page that its position lies in, and asks for it.
fn fetch(
    m: &mut [u8],
    node: usize,
    opened: usize,
    position: usize,
    count: usize,
    request: &mut [u8],
) -> Outcome
    requires { (node < NODES) × (opened < open_rows) × (position ≤ FILE_BYTES) × (count ≤ DATA_BYTES) × IsMemory m.old
        × HoldsRequest request.old }
    ensures { Asks m request (reading node opened position count (page_at position))
        (fetch_request (open_at (was m.old).opens opened).descriptor (page_at position)) result }
{
    let descriptor = memory::open_descriptor(m, opened);
    let page = position / Guard::PAGE_BYTES;
    guard_state::wait_read(m, node, opened, position, count, page);
    let l = requests::write_fetch(request, descriptor, page as u32);
    Outcome::Ask(l)
}

// A read that passed, by the places of its open file and node. Of no bytes it asks for nothing; no valid table has a
// longer file.
fn read_at(
    m: &mut [u8],
    n: usize,
    opened: usize,
    node: usize,
    count: usize,
    request: &mut [u8],
) -> Outcome
    requires { (n ≡ (numbers_in m.old).nodes) × (opened < (numbers_in m.old).opens) × (n ≤ NODES) × (opened < open_rows)
        × (count ≤ DATA_BYTES) × IsMemory m.old × HoldsRequest request.old }
    ensures sends { (c : Config) → (node_at (state_of c m.old).skeleton.tables.nodes node).size ≤
        FILE_BYTES → Sends c (apply c (digest_store c) (state_of c m.old)
        (read_of (state_of c m.old).skeleton.tables opened node
        (left_of (state_of c m.old).skeleton.tables opened node count))) result m.new
        request.old request.new }
    ensures keeps_length { KeepsLength m }
{
    let cursor = memory::open_cursor(m, opened) as usize;
    let size = handle_calls::size_at(m, n, node) as usize;
    let left = count.min(size.saturating_sub(cursor));
    if left == 0 {
        guard_state::finish(m);
        return Outcome::Done {
            number: 0,
            length: 0,
        };
    }
    if Guard::FILE_BYTES < size {
        return Outcome::Refused(Refusal::FileTooLarge);
    }
    fetch(m, node, opened, cursor, left, request)
}

// read: at most count bytes from the cursor on, of the open file with this handle.
pub fn begin_read(m: &mut [u8], handle: u64, count: usize, request: &mut [u8]) -> Outcome
    requires { (count ≤ DATA_BYTES) × IsMemory m.old × HoldsRequest request.old }
    ensures { Begins m request (read handle count) result }
{
    let g = Guard::load(m);
    let n = g.nodes;
    match judge_read(m, n, g.opens, handle) {
        Ok(file) => read_at(m, n, file.opened, file.node, count, request),
        Err(refusal) => Outcome::Refused(refusal),
    }
}

// ---- a page came

// A page came and the read is not done: its bytes are staged behind those before, and the read waits for the next page.
fn next_page(
    m: &mut [u8],
    node: usize,
    opened: usize,
    position: usize,
    count: usize,
    page: usize,
    bytes: usize,
    more: &[u8],
    request: &mut [u8],
) -> Outcome
    requires { (opened < (numbers_in m.old).opens) × (page * PAGE_BYTES + PAGE_BYTES < position + count)
        × (bytes + length more.now ≤ DATA_BYTES) × (node < NODES) × (opened < open_rows) × (position ≤ FILE_BYTES)
        × (count ≤ DATA_BYTES) × (page < file_pages) × IsMemory m.old × HoldsRequest request.old }
    ensures sends { (c : Config) (x : List ℕ) → more.now ≡ page_part x position count page → Gathers c m bytes
        → Sends c (page_taken c (state_of c m.old) node opened position count page x) result m.new
        request.old request.new }
    ensures keeps_length { KeepsLength m }
{
    let descriptor = memory::open_descriptor(m, opened);
    let next = page + 1;
    guard_state::wait_page(m, node, opened, position, count, next, bytes, more);
    let l = requests::write_fetch(request, descriptor, next as u32);
    Outcome::Ask(l)
}

// The bytes of a read that is done, over the front of the answer buffer: those that are staged, and those of the last
// page.
fn put_answer(m: &[u8], bytes: usize, more: &[u8], answer: &mut [u8])
    requires { (bytes + length more.now ≤ DATA_BYTES) × (DATA_BYTES ≤ length answer.old) × IsMemory m.now }
    ensures { answer.new ≡ at_front (take bytes (was m.now).staged ++ more.now)
        answer.old }
{
    let b = memory::staged(m, 0, bytes);
    buffers::put(answer, 0, b);
    buffers::put(answer, bytes, more);
}

// The read is done: its cursor stands behind what it gave.
fn end_read(m: &mut [u8], opened: usize, end: usize)
    requires { (opened < (numbers_in m.old).opens) × (opened < open_rows) × (end ≤ FILE_BYTES + DATA_BYTES) × IsMemory m.old }
    ensures { Turns m (λ c s. ends c s (cursor_to s.skeleton.tables opened end) s.contents) }
{
    memory::set_cursor(m, opened, end as u32);
    guard_state::finish(m);
}

// The last page of a read came: its bytes go to the answer buffer behind those that are staged, and the read is done.
fn last_page(
    m: &mut [u8],
    opened: usize,
    position: usize,
    count: usize,
    bytes: usize,
    more: &[u8],
    answer: &mut [u8],
) -> Outcome
    requires { (opened < (numbers_in m.old).opens) × (opened < open_rows) × (position ≤ FILE_BYTES) × (count ≤ DATA_BYTES)
        × (bytes + length more.now ≤ DATA_BYTES) × (DATA_BYTES ≤ length answer.old) × IsMemory m.old }
    ensures fills { (c : Config) (k i : ℕ) (x : List ℕ) → position + count ≤ i * PAGE_BYTES + PAGE_BYTES
        → more.now ≡ page_part x position count i → Gathers c m bytes
        → Fills c (page_taken c (state_of c m.old) k opened position count i x) result m.new
        answer.old answer.new }
    ensures keeps_length { KeepsLength m }
{
    let l = bytes + more.len();
    let end = position + count;
    put_answer(m, bytes, more, answer);
    end_read(m, opened, end);
    Outcome::Done {
        number: count as u64,
        length: l,
    }
}

// The bytes of a page that lie in the read.
fn page_part(reply: &[u8], position: usize, count: usize, page: usize) -> &[u8]
    requires { (length reply.now ≡ PAGE_BYTES) × (position ≤ FILE_BYTES) × (count ≤ DATA_BYTES) × (page ≤ file_pages)
        × (page * PAGE_BYTES < position + count) × (position < page * PAGE_BYTES + PAGE_BYTES) }
    ensures { (result.now ≡ page_part reply.now position count page) × (length result.now ≤ count) }
{
    let at = page * Guard::PAGE_BYTES;
    let start = position.saturating_sub(at);
    let end = (position + count - at).min(Guard::PAGE_BYTES);
    &reply[start..end]
}

// Does the page lie in the read, and the read in a file? Every consistent state's does.
fn in_read(position: usize, count: usize, page: usize) -> bool
    requires { (position ≤ FILE_BYTES) × (count ≤ DATA_BYTES) × (page ≤ file_pages) }
    ensures { (result ≡ true → InRead position count page) × (InRead position count page → result ≡ true) }
{
    let at = page * Guard::PAGE_BYTES;
    let end = position + count;
    if end <= at {
        return false;
    }
    if at + Guard::PAGE_BYTES <= position {
        return false;
    }
    end <= Guard::FILE_BYTES
}

// The right page of the read came: the next one is asked for, or the read is done. No consistent state has staged more
// than a read gives.
fn take_page(
    m: &mut [u8],
    node: usize,
    opened: usize,
    position: usize,
    count: usize,
    page: usize,
    bytes: usize,
    reply: &[u8],
    answer: &mut [u8],
    request: &mut [u8],
) -> Outcome
    requires { (opened < (numbers_in m.old).opens) × (InRead position count page) × (length reply.now ≡ PAGE_BYTES)
        × (bytes ≤ DATA_BYTES) × (node < NODES) × (opened < open_rows) × (count ≤ DATA_BYTES)
        × (DATA_BYTES ≤ length answer.old) × IsMemory m.old × HoldsRequest request.old }
    ensures leaves { (c : Config) → bytes + length (page_part reply.now position count page) ≤ DATA_BYTES
        → Gathers c m bytes → Leaves c (page_taken c (state_of c m.old) node opened position count page
        reply.now) result m.new answer.old answer.new request.old
        request.new }
    ensures keeps_length { KeepsLength m }
{
    let more = page_part(reply, position, count, page);
    if Guard::DATA_BYTES < bytes + more.len() {
        return Outcome::Stopped(StopReason::Page);
    }
    if page * Guard::PAGE_BYTES + Guard::PAGE_BYTES < position + count {
        return next_page(m, node, opened, position, count, page, bytes, more, request);
    }
    last_page(m, opened, position, count, bytes, more, answer)
}

// A page of the read came: the guard stops, or the next page is asked for, or the read is done.
pub fn accept_page(m: &mut [u8], reply: &[u8], answer: &mut [u8], request: &mut [u8]) -> Outcome
    requires { ((numbers_in m.old).call ≡ READING) × (DATA_BYTES ≤ length answer.old) × IsMemory m.old
        × HoldsRequest request.old }
    ensures { AcceptsBoth m reply.now answer request result }
{
    let g = Guard::load(m);
    if let Err(reason) = replies::judge_page(m, g.nodes, g.node, g.page, reply) {
        return Outcome::Stopped(reason);
    }
    if g.opens <= g.opened {
        return Outcome::Stopped(StopReason::Page);
    }
    if !in_read(g.position, g.count, g.page) {
        return Outcome::Stopped(StopReason::Page);
    }
    take_page(
        m, g.node, g.opened, g.position, g.count, g.page, g.bytes, reply, answer, request,
    )
}
