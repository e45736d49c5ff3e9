// The tests of a move: a node that gets another directory and another name.
#![tactic(auto)]

ghost use Rattle.std.specs.Prelude.{true, not, ◌||◌, ◌≡◌, ℕ, ◌≤◌, ◌<◌, length};
ghost use Rattle.filesystem.specs.Image.{sound_nodes, length_in};
ghost use Rattle.filesystem.specs.Tables.{NODES, NAME_BYTES, PATH_BYTES, node_at, is_directory, has_bit};
ghost use Rattle.filesystem.specs.Ways.{ParentAt};
ghost use Rattle.links.specs.Climbs.{Linked};
ghost use Rattle.links.specs.Parents.{Placed};
ghost use Rattle.memory.specs.Memories.{IsMemory, nodes_of};
ghost use Rattle.refusals.specs.Numbers.{refusal_or_0};
ghost use Rattle.moves.specs.Moves.{move_number};

use refusals::Refusal;

// The place of the parent of node k; 0 where there is none, as for the root. `hint` is tried first.
fn parent_place(
    m: &[u8],
    n: usize,
    k: usize,
    hint: usize,
    places: &mut [u8; tables::PLACES],
) -> usize
    requires { (k < n) × (n ≤ NODES) × IsMemory m.now }
    ensures { (result < n) × ((w : ℕ) → sound_nodes w (nodes_of n m.now) ≡ true → 0 < k
        → ParentAt (nodes_of n m.now) (node_at (nodes_of n m.now) k) result) }
{
    tables::find_listed(m, n, memory::node_parent(m, k), hint, places).unwrap_or(0)
}

// Of each node but the root, the place of its parent in `to` and the bytes of its name, with a slash, in `far`.
fn place_parents(m: &[u8], n: usize, to: &mut [u8], far: &mut [u8])
    requires { (0 < n) × (n ≤ NODES) × (length to.old ≡ NODES) × (length far.old ≡ NODES) × IsMemory m.now }
    ensures { Linked to.new far.new n
        × ((w : ℕ) → sound_nodes w (nodes_of n m.now) ≡ true
        → Placed (node_at (nodes_of n m.now)) to.new far.new n n) }
{
    let mut places = [0u8; tables::PLACES];
    let mut parent = 0;
    // those of the nodes before k; nodes of one directory often follow each other
    for k in 1..n {
        parent = parent_place(m, n, k, parent, &mut places);
        to[k] = parent as u8;
        far[k] = (memory::node_name(m, k).len() + 1) as u8;
    }
}

// Whether one of the two directories may not be written: 13.
fn is_barred(m: &[u8], n: usize, from: usize, d: usize) -> bool
    requires { (from < n) × (d < n) × (n ≤ NODES) × IsMemory m.now }
    ensures { result ≡ (not (has_bit 2 (node_at (nodes_of n m.now) from)) || not (has_bit 2 (node_at (nodes_of n m.now) d))) }
{
    if memory::node_mode(m, from) / 2 % 2 != 1 {
        return true;
    }
    memory::node_mode(m, d) / 2 % 2 != 1
}

// Of directory k, which the directory in place `from` holds, as `name` in directory d: 22 beneath itself, 13, 36 where
// a path beneath it would be too long.
fn judge_directory(
    m: &[u8],
    n: usize,
    k: usize,
    from: usize,
    d: usize,
    name: &[u8],
) -> Result<(), Refusal>
    requires { (0 < k) × (k < n) × (from < n) × (d < n) × (n ≤ NODES) × (length name.now ≤ NAME_BYTES)
        × IsMemory m.now }
    ensures { (w : ℕ) → sound_nodes w (nodes_of n m.now) ≡ true → is_directory (node_at (nodes_of n m.now) d) ≡ true
        → refusal_or_0 result ≡ move_number (nodes_of n m.now) k from d name.now }
{
    let mut to = [0u8; limits::NODES];
    let mut far = [0u8; limits::NODES];
    place_parents(m, n, &mut to, &mut far);
    to[k] = d as u8;
    far[k] = (name.len() + 1) as u8;
    // beneath itself it would lead back to itself, and never to the root
    if links::climb(&to, &far, n, d).is_none() {
        return Err(Refusal::Invalid);
    }
    if is_barred(m, n, from, d) {
        return Err(Refusal::Denied);
    }
    if !links::all_climb(&mut to, &mut far, n) {
        return Err(Refusal::TooLong);
    }
    Ok(())
}

// The same of any node; nothing lies beneath a file.
pub fn judge_move(
    m: &[u8],
    n: usize,
    k: usize,
    from: usize,
    d: usize,
    name: &[u8],
) -> Result<(), Refusal>
    requires { (0 < k) × (k < n) × (from < n) × (d < n) × (n ≤ NODES) × (length name.now ≤ NAME_BYTES)
        × IsMemory m.now }
    ensures { (w : ℕ) → sound_nodes w (nodes_of n m.now) ≡ true → is_directory (node_at (nodes_of n m.now) d) ≡ true
        → length_in (nodes_of n m.now) d name.now ≤ PATH_BYTES
        → refusal_or_0 result ≡ move_number (nodes_of n m.now) k from d name.now }
{
    if memory::node_kind(m, k) == limits::DIRECTORY {
        return judge_directory(m, n, k, from, d, name);
    }
    if is_barred(m, n, from, d) {
        return Err(Refusal::Denied);
    }
    Ok(())
}
