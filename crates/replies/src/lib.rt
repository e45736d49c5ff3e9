// Replies that calls share judged: right, or the stop reason; and a call ended by a full disk.
#![tactic(auto)]

ghost use Rattle.std.specs.Prelude.{List, [], ◌≡◌, ℕ, ◌<◌, ◌≤◌, length, get_or, OnOk};
ghost use Rattle.filesystem.specs.Image.{divide};
ghost use Rattle.filesystem.specs.Tables.{NODES, node_at, PAGES, PAGE_BYTES, pages_for, page_total};
ghost use Rattle.memory.specs.Memories.{IsMemory, nodes_of, was};
ghost use Rattle.rules.specs.Rules.{says_full};
ghost use Rattle.rules.specs.Skeleton.{Config};
ghost use Rattle.machine.specs.Machine.{gave_up, guard as digest_store};
ghost use Rattle.numbers.specs.Slices.{KeepsLength};
ghost use Rattle.guard_state.specs.State.{state_of};
ghost use Rattle.outcomes.specs.Sent.{Sends};
ghost use Rattle.refusals.specs.Numbers.{reason_or_0};
ghost use Rattle.replies.specs.Judged.{status_of, page_reason};

use guard_state::Guard;
use outcomes::Outcome;
use refusals::{Refusal, StopReason};

// A status: 1 of another length, 2 where it is not the expected one (specs/laws/JudgedLaws.antt: of which requests).
pub fn judge_status(reply: &[u8], expected: i32) -> Result<(), StopReason>
    ensures { reason_or_0 result ≡ status_of reply.now expected }
{
    if reply.len() != 4 {
        return Err(StopReason::Length);
    }
    if numbers::i32_at(reply, 0) != expected {
        return Err(StopReason::Status);
    }
    Ok(())
}

// Whether a status says that the disk is full.
pub fn is_full(reply: &[u8]) -> bool
    ensures { result ≡ says_full 4 reply.now }
{
    judge_status(reply, -28).is_ok()
}

// The disk is full, and the pending call has finished nothing: it is refused, and all else is as before it.
pub fn give_up(m: &mut [u8]) -> Outcome
    requires { IsMemory m.old }
    ensures sends { (c : Config) (q : List ℕ)
        → Sends c (gave_up c (digest_store c) (state_of c m.old)) result m.new q q }
    ensures keeps_length { KeepsLength m }
{
    guard_state::finish(m);
    Outcome::Refused(Refusal::NoSpace)
}

// Page i of the node in place k as a reply: 1 of another length, 5 where its digest is not the kept one. No valid table
// lacks the page.
pub fn judge_page(m: &[u8], n: usize, k: usize, i: usize, reply: &[u8]) -> Result<(), StopReason>
    requires { (n ≤ NODES) × IsMemory m.now }
    ensures value { k < n → i < pages_for (node_at (was m.now).nodes k).size → page_total (nodes_of n m.now) ≤ PAGES
        → reason_or_0 result
        ≡ page_reason (get_or (get_or (divide (nodes_of n m.now) (was m.now).digests) k []) i []) reply.now }
    ensures reply_len { OnOk result (length reply.now ≡ PAGE_BYTES) }
{
    if reply.len() != Guard::PAGE_BYTES {
        return Err(StopReason::Length);
    }
    if n <= k {
        return Err(StopReason::Page);
    }
    if tables::pages_for(memory::node_size(m, k)) <= i {
        return Err(StopReason::Page);
    }
    if tables::is_page(m, k, i, reply) {
        return Ok(());
    }
    Err(StopReason::Page)
}
