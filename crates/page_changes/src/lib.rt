// What a write and a truncation share: a page is asked for, a page goes out, and the change ends when its last reply
// came.
#![tactic(auto)]

ghost use Rattle.std.specs.Prelude.{List, [], ◌∷◌, ◌++◌, ◌≡◌, ℕ, ◌<◌, ◌≤◌};
ghost use Rattle.lists.specs.Parts.{part};
ghost use Rattle.filesystem.specs.Tables.{PAGE_BYTES};
ghost use Rattle.rules.specs.Pages.{Change};
ghost use Rattle.rules.specs.Requests.{fetch_request, store_length};
ghost use Rattle.rules.specs.Skeleton.{Config};
ghost use Rattle.machine.specs.Machine.{descriptor_at, asking, trimmed, finish_change, guard as digest_store};
ghost use Rattle.numbers.specs.Slices.{KeepsLength};
ghost use Rattle.digest.specs.Sha256.{sha256};
ghost use Rattle.memory.specs.Layout.{open_rows, new_digests};
ghost use Rattle.memory.specs.Memories.{IsMemory, was};
ghost use Rattle.guard_state.specs.Onward.{goes_on};
ghost use Rattle.guard_state.specs.State.{pending_in, state_of, file_pages, numbers_in};
ghost use Rattle.guard_state.specs.Waits.{waits};
ghost use Rattle.outcomes.specs.Sent.{Sends};
ghost use Rattle.outcomes.specs.declared.Outcome.TheVariants.{Ask};
ghost use Rattle.requests.specs.Room.{HoldsRequest};
ghost use Rattle.refusals.specs.Numbers.{reason_or_0};
ghost use Rattle.page_changes.specs.Asked.{Changing, store_front};
ghost use Rattle.page_changes.specs.Clauses.{Moves};
ghost use Rattle.page_changes.specs.Ended.{Ended};
ghost use Rattle.page_changes.specs.Fetched.{Fetched};

use guard_state::Guard;
use outcomes::Outcome;
use refusals::StopReason;

// The pending change asks for a page, and waits for it as `call` says (guard_state::calls).
pub fn ask_page(m: &mut [u8], call: u64, page: usize, request: &mut [u8]) -> Outcome
    requires { Changing (numbers_in m.old).call × Changing call × (page ≤ file_pages) × IsMemory m.old
        × HoldsRequest request.old }
    ensures { Moves m request (λ c s. asking c (digest_store c) s
        (fetch_request (descriptor_at c (digest_store c) s (numbers_in m.old).opened) page)
        (pending_in (goes_on call page (numbers_in m.old)) (was m.old).staged) s.progress) result }
{
    let g = Guard::load(m);
    let d = memory::open_descriptor(m, g.opened);
    guard_state::wait_further(m, call, page);
    let l = requests::write_fetch(request, d, page as u32);
    Outcome::Ask(l)
}

// The page that the pending change fetched, judged. No consistent change has sent more pages than there is room for
// their digests.
pub fn judge_fetched(m: &[u8], reply: &[u8]) -> Result<(), StopReason>
    requires { IsMemory m.now }
    ensures { Fetched m.now reply.now (reason_or_0 result) }
{
    let g = Guard::load(m);
    replies::judge_page(m, g.nodes, g.node, g.page, reply)?;
    if memory::NEW_DIGESTS <= g.digests {
        return Err(StopReason::Status);
    }
    Ok(())
}

// The store that stands in the request buffer goes out: its page's digest is staged, and the change waits for the
// status as `call` says.
pub fn send_store(m: &mut [u8], call: u64, page: usize, request: &[u8]) -> Outcome
    requires { Changing (numbers_in m.old).call × Changing call × ((numbers_in m.old).digests < new_digests) × (page ≤ file_pages)
        × IsMemory m.old × HoldsRequest request.now }
    ensures m_after { (c : Config) → c.digest ≡ sha256
        → state_of c m.new ≡ waits c (state_of c m.old)
        (pending_in (goes_on call page (numbers_in m.old)) (was m.old).staged)
        (record {
          bytes = [];
          digests = (state_of c m.old).progress.digests
              ++ (c.digest (part store_front PAGE_BYTES request.now) ∷ []);
        }) }
    ensures value { result ≡ Ask store_length }
    ensures keeps_length { KeepsLength m }
{
    let d = digest::sha256(&request[requests::STORE_FRONT..requests::STORE_LENGTH]);
    guard_state::wait_sent(m, call, page, d);
    Outcome::Ask(requests::STORE_LENGTH)
}

// The file has its size and the first `count` of its new digests, the open file its cursor, and the call is done. Where
// the tables cannot take the change, no valid call is pending.
pub fn end_change(
    m: &mut [u8],
    node: usize,
    opened: usize,
    size: u32,
    cursor: u32,
    from: usize,
    count: usize,
    number: u64,
) -> Outcome
    requires { (opened < open_rows) × IsMemory m.old }
    ensures sends { (c : Config) (q : Change) → Ended c m.old q node opened size cursor from count number
        → (b : List ℕ) → Sends c (finish_change c (digest_store c)
        (trimmed c (digest_store c) (state_of c m.old) count) node opened q) result m.new b b }
    ensures keeps_length { KeepsLength m }
{
    let g = Guard::load(m);
    let n = g.nodes;
    if !tables::change_file(m, n, node, size, from, count) {
        return Outcome::Stopped(StopReason::Status);
    }
    memory::set_cursor(m, opened, cursor);
    guard_state::rest(m, n, g.opens);
    Outcome::Done { number, length: 0 }
}
