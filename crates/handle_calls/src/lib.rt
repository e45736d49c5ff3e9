// What calls by handle share: the open file and its node found, its rights, and what its file's size allows
// (SPECIFICATION 7.8).
#![tactic(auto)]

ghost use Rattle.std.specs.Prelude.{true, ◌≡◌, ℕ, ◌<◌, ◌≤◌, IfOk};
ghost use Rattle.filesystem.specs.Image.{sound_nodes};
ghost use Rattle.filesystem.specs.Tables.{NODES, node_at, find_id};
ghost use Rattle.rules.specs.Rules.{no_room};
ghost use Rattle.memory.specs.Layout.{open_rows};
ghost use Rattle.memory.specs.Memories.{IsMemory, nodes_of, was, opens_of};
ghost use Rattle.tables.specs.View.{tables_in};
ghost use Rattle.refusals.specs.Numbers.{numbered};
ghost use Rattle.handle_calls.specs.Judged.{found_with, end_checked};

use refusals::Refusal;

// The places of an open file and of its node.
#[derive(Clone, Copy, PartialEq, Eq)]
pub struct Handled {
    pub opened: usize,
    pub node: usize,
}

// The place of the open file with this handle, if it has this right; else 9.
pub fn find_with_right(m: &[u8], o: usize, handle: u64, right: u8) -> Result<usize, Refusal>
    requires { (0 < right) × (o ≤ open_rows) × IsMemory m.now }
    ensures { numbered result ≡ found_with (opens_of o m.now) handle right }
{
    let Some(k) = tables::find_handle(m, o, handle) else {
        return Err(Refusal::BadHandle);
    };
    if memory::open_rights(m, k) / right % 2 != 1 {
        return Err(Refusal::BadHandle);
    }
    Ok(k)
}

// The place of the node of the open file in place k, which has this handle. No valid table lacks it.
pub fn file_place(m: &[u8], n: usize, k: usize, handle: u64) -> usize
    requires { (n ≤ NODES) × (k < open_rows) × IsMemory m.now }
    ensures { (w : ℕ) → sound_nodes w (nodes_of n m.now) ≡ true → result ≡ find_id (nodes_of n m.now) handle }
{
    tables::find_node(m, n, handle, memory::open_hint(m, k) as usize).unwrap_or(n)
}

// The size of the node in place k; past the nodes there is none.
pub fn size_at(m: &[u8], n: usize, k: usize) -> u32
    requires { (n ≤ NODES) × IsMemory m.now }
    ensures { result ≡ (node_at (nodes_of n m.now) k).size }
{
    if n <= k {
        return 0;
    }
    memory::node_size(m, k)
}

// 22 past the end, for the open file in place k. A position that passes is at most a size, so it fits a u32.
pub fn judge_end(
    m: &[u8],
    n: usize,
    handle: u64,
    k: usize,
    position: u64,
) -> Result<Handled, Refusal>
    requires { (n ≤ NODES) × (k < open_rows) × IsMemory m.now }
    ensures by_index { (w : ℕ) → sound_nodes w (nodes_of n m.now) ≡ true
        → numbered result ≡ end_checked (nodes_of n m.now) handle k position }
    ensures passed { IfOk result (λ p. (p.opened ≡ k) × (position < 4294967296)) }
{
    let node = file_place(m, n, k, handle);
    if (size_at(m, n, node) as u64) < position {
        return Err(Refusal::Invalid);
    }
    Ok(Handled { opened: k, node })
}

// Whether the pages would be too many if the node in place k had this size. Sound nodes have room for their own.
pub fn is_full(m: &[u8], n: usize, k: usize, size: u32) -> bool
    requires { (n ≤ NODES) × IsMemory m.now }
    ensures { (w o : ℕ) → sound_nodes w (nodes_of n m.now) ≡ true → result ≡ no_room (tables_in n o (was m.now)) k size }
{
    if n <= k {
        return false;
    }
    if tables::pages_for(size) <= tables::pages_for(memory::node_size(m, k)) {
        return false;
    }
    limits::PAGES < tables::pages_with(m, n, k, size)
}
