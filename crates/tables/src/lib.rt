// The guard's tables: searches and changes of nodes, open files and page digests, each equal to its definition.
// Contracts are over the rows in use (specs/View.antt); where a row stands is the memory crate's.
#![tactic(auto)]

ghost use Rattle.std.specs.Prelude.{true, false, List, [], ◌≡◌, ℕ, ◌+◌, ◌-◌, ◌*◌, ◌≤◌, ◌<◌, eqb, length, get_or, take};
ghost use Rattle.std.specs.Prelude.{replicate, IfSome};
ghost use Rattle.lists.specs.Equal.{equal};
ghost use Rattle.lists.specs.Parts.{overwrite};
ghost use Rattle.lists.specs.Pick.{pick};
ghost use Rattle.filesystem.specs.Image.{sound_nodes, divide};
ghost use Rattle.filesystem.specs.Tables.{NODES, PAGES, find_id, find_child, children, find_handle, find_descriptor};
ghost use Rattle.filesystem.specs.Tables.{node_at, pages_for, page_total, set_size};
ghost use Rattle.numbers.specs.Slices.{KeepsLength};
ghost use Rattle.digest.specs.Sha256.{sha256};
ghost use Rattle.zero_page.specs.ZeroPage.{zero_page};
ghost use Rattle.memory.specs.Layout.{mem_of, open_rows, with_digests};
ghost use Rattle.memory.specs.Memories.{IsMemory, nodes_of, opens_of, was, Becomes};
ghost use Rattle.memory.specs.Records.{node_of, open_of};
ghost use Rattle.tables.specs.Found.{found};
ghost use Rattle.tables.specs.View.{view_of, with_node, without_node, with_open, without_open, with_change};
ghost use Rattle.tables.specs.View.{staged_digests, Changeable, Growable, Spans, Resizes, Bounded, Room};
ghost use Rattle.tables.specs.View.{Others, FirstPlaces, hash_of};

// ---- searches

// The place of the node with this id.
pub fn find_id(m: &[u8], n: usize, id: u64) -> Option<usize>
    requires { (n ≤ NODES) × IsMemory m.now }
    ensures { result ≡ found n (find_id (nodes_of n m.now) id) }
{
    (0..n).find(|i| memory::node_id(m, *i) == id)
}

// Whether k is the place of the node with this id: ids differ among sound nodes, so where node k has it, the search
// would find it too.
fn is_place(m: &[u8], n: usize, id: u64, k: usize) -> bool
    requires { (n ≤ NODES) × IsMemory m.now }
    ensures place { result ≡ true → (w : ℕ) → sound_nodes w (nodes_of n m.now) ≡ true
        → Some k ≡ found n (find_id (nodes_of n m.now) id) }
    ensures within { result ≡ true → k < n }
{
    if n <= k {
        return false;
    }
    memory::node_id(m, k) == id
}

// The search with a place that is tried first.
pub fn find_node(m: &[u8], n: usize, id: u64, hint: usize) -> Option<usize>
    requires { (n ≤ NODES) × IsMemory m.now }
    ensures place { (w : ℕ) → sound_nodes w (nodes_of n m.now) ≡ true
        → result ≡ found n (find_id (nodes_of n m.now) id) }
    ensures within { IfSome result (λ k. k < n) }
{
    if is_place(m, n, id, hint) {
        return Some(hint);
    }
    find_id(m, n, id)
}

// Room for places by id: for each hash the last place with it, for each place the one before it with the same hash, and
// how far they are made. Each place is tried before it is believed, so nothing is promised of them.
pub const PLACES: usize = STEP + 1;

const STEP: usize = 2 * limits::NODES;

// Ids that follow each other, or stand at equal distances, fall apart: the upper bits of a multiple by the golden
// ratio.
fn hash(id: u64) -> usize
    ensures { (result ≡ hash_of id) × (result < NODES) }
{
    (id % 4294967296 * 2654435769 / 16777216 % limits::NODES as u64) as usize
}

fn list_places(m: &[u8], n: usize, places: &mut [u8; PLACES])
    requires { (n ≤ NODES) × IsMemory m.now }
{
    for k in 0..n {
        let h = hash(memory::node_id(m, k));
        places[limits::NODES + k] = places[h];
        places[h] = k as u8;
    }
    places[STEP] = 2;
}

fn to_place(b: u8) -> usize
    ensures { (result ≡ b) × (result < NODES) }
{
    b as usize
}

// The place with this id among those of its hash, from the last on: each is behind the next, else there are no more.
fn place_of(m: &[u8], places: &[u8; PLACES], id: u64) -> usize
    requires { IsMemory m.now }
{
    let mut k = to_place(places[hash(id)]);
    // the table says which place is next, so there is no range to go over
    while memory::node_id(m, k) != id {
        let next = to_place(places[limits::NODES + k]);
        if k <= next {
            return k;
        }
        k = next;
    }
    k
}

// A place to try for an id. One id alone is searched; the places are made for the second.
fn likely_place(m: &[u8], n: usize, id: u64, places: &mut [u8; PLACES]) -> usize
    requires { (n ≤ NODES) × IsMemory m.now }
{
    let step = places[STEP];
    if step == 0 {
        places[STEP] = 1;
        return n;
    }
    if step == 1 {
        list_places(m, n, places);
    }
    place_of(m, places, id)
}

// find_node for many ids in any order: where the hint has another id, one of `places`, at first all 0, is tried.
pub fn find_listed(
    m: &[u8],
    n: usize,
    id: u64,
    hint: usize,
    places: &mut [u8; PLACES],
) -> Option<usize>
    requires { (n ≤ NODES) × IsMemory m.now }
    ensures place { (w : ℕ) → sound_nodes w (nodes_of n m.now) ≡ true
        → result ≡ found n (find_id (nodes_of n m.now) id) }
    ensures within { IfSome result (λ k. k < n) }
{
    if is_place(m, n, id, hint) {
        return Some(hint);
    }
    find_node(m, n, id, likely_place(m, n, id, places))
}

// Whether none of the four nodes from i on has this parent.
fn four_others(m: &[u8], i: usize, parent: u64) -> bool
    requires { (i + 4 ≤ NODES) × IsMemory m.now }
    ensures { result ≡ true → Others (was m.now).nodes parent i (i + 4) }
{
    if memory::node_parent(m, i) == parent {
        return false;
    }
    if memory::node_parent(m, i + 1) == parent {
        return false;
    }
    if memory::node_parent(m, i + 2) == parent {
        return false;
    }
    memory::node_parent(m, i + 3) != parent
}

// Where a search for a child of this parent may begin: no node before has the parent. Most rows of a large table stand
// in
// other directories, so eight are passed in a turn.
fn first_child(m: &[u8], n: usize, parent: u64) -> usize
    requires { (n ≤ NODES) × IsMemory m.now }
    ensures { (result ≤ n) × Others (was m.now).nodes parent 0 result }
{
    let blocks = n / 8;
    for block in 0..blocks {
        let i = 8 * block;
        if !four_others(m, i, parent) {
            return i;
        }
        if !four_others(m, i + 4, parent) {
            return i + 4;
        }
    }
    8 * blocks
}

// Where the children of each parent may begin, by the hash of its id; 255 where no node has such a parent.
pub fn first_places(m: &[u8], n: usize) -> [u8; limits::NODES]
    requires { (n ≤ NODES) × IsMemory m.now }
    ensures { FirstPlaces (was m.now).nodes n result }
{
    let mut firsts = [255u8; limits::NODES];
    // those of the nodes behind k
    for k in (0..n).rev() {
        firsts[hash(memory::node_parent(m, k))] = k as u8;
    }
    firsts
}

// The place of the node with this parent and this name, or `nodes`, where no node before `start` has the parent. A
// number, since as an option it costs two instructions more for each node that is looked at.
fn find_child_from(m: &[u8], nodes: usize, parent: u64, name: &[u8], start: usize) -> usize
    requires { (start ≤ nodes) × (nodes ≤ NODES) × IsMemory m.now }
    ensures { Others (was m.now).nodes parent 0 start → result ≡ find_child (nodes_of nodes m.now) parent name.now }
{
    (start..nodes)
        .find(|i| memory::is_child(m, *i, parent, name))
        .unwrap_or(nodes)
}

// A place below n; none from n on.
fn place_below(n: usize, place: usize) -> Option<usize>
    ensures { result ≡ found n place }
{
    if place < n { Some(place) } else { None }
}

// The same, whatever stands where.
pub fn find_child(m: &[u8], nodes: usize, parent: u64, name: &[u8]) -> Option<usize>
    requires { (nodes ≤ NODES) × IsMemory m.now }
    ensures { result ≡ found nodes (find_child (nodes_of nodes m.now) parent name.now) }
{
    let start = first_child(m, nodes, parent);
    place_below(nodes, find_child_from(m, nodes, parent, name, start))
}

// The same by first_places, for a walk of many steps. A place 0 says nothing.
pub fn find_child_by(
    m: &[u8],
    nodes: usize,
    parent: u64,
    name: &[u8],
    firsts: &[u8; limits::NODES],
) -> Option<usize>
    requires { (nodes ≤ NODES) × IsMemory m.now × FirstPlaces (mem_of m.now).nodes nodes firsts.now }
    ensures { result ≡ found nodes (find_child (nodes_of nodes m.now) parent name.now) }
{
    let first = to_place(firsts[hash(parent)]);
    if first == 0 {
        return find_child(m, nodes, parent, name);
    }
    let start = first.min(nodes);
    place_below(nodes, find_child_from(m, nodes, parent, name, start))
}

// How many nodes have this parent.
pub fn count_children(m: &[u8], n: usize, parent: u64) -> usize
    requires { (n ≤ NODES) × IsMemory m.now }
    ensures { result ≡ length (children (nodes_of n m.now) parent) }
{
    let mut c = 0;
    // c of the first i are
    for i in 0..n {
        if memory::node_parent(m, i) == parent {
            c += 1;
        }
    }
    c
}

// The place of the open file with this handle.
pub fn find_handle(m: &[u8], o: usize, handle: u64) -> Option<usize>
    requires { (o ≤ open_rows) × IsMemory m.now }
    ensures { result ≡ found o (find_handle (opens_of o m.now) handle) }
{
    (0..o).find(|i| memory::open_handle(m, *i) == handle)
}

// The place of the open file with this descriptor.
pub fn find_descriptor(m: &[u8], o: usize, descriptor: u32) -> Option<usize>
    requires { (o ≤ open_rows) × IsMemory m.now }
    ensures { result ≡ found o (find_descriptor (opens_of o m.now) descriptor) }
{
    (0..o).find(|i| memory::open_descriptor(m, *i) == descriptor)
}

// ---- pages

const LAST_BYTE: usize = limits::PAGE_BYTES - 1;

// How many pages a file of this size has.
pub fn pages_for(size: u32) -> usize
    ensures { (result ≡ pages_for size) × (result ≤ 4194304) }
{
    (size as usize + LAST_BYTE) / limits::PAGE_BYTES
}

// How many pages the first n nodes have, where the first k have s.
fn pages_on(m: &[u8], k: usize, s: usize, n: usize) -> usize
    requires { (k ≤ n) × (n ≤ NODES) × (s ≡ page_total (take k (mem_of m.now).nodes)) × (s ≤ k * 4194304)
        × IsMemory m.now }
    ensures { (result ≡ page_total (nodes_of n m.now)) × (result ≤ n * 4194304) }
{
    let mut t = s;
    // t pages in the first i nodes
    for i in k..n {
        t += pages_for(memory::node_size(m, i));
    }
    t
}

// How many pages the first k nodes have: where the digests of node k begin.
pub fn first_page(m: &[u8], k: usize) -> usize
    requires { (k ≤ NODES) × IsMemory m.now }
    ensures { (result ≡ page_total (nodes_of k m.now)) × (result ≤ k * 4194304) }
{
    pages_on(m, 0, 0, k)
}

// Where the pages of a node begin and end, and how many all nodes have.
#[derive(Clone, Copy)]
struct Span {
    first: usize,
    end: usize,
    total: usize,
}

// The same of node k among the first n.
fn pages_of(m: &[u8], n: usize, k: usize) -> Span
    requires { (k < n) × (n ≤ NODES) × IsMemory m.now }
    ensures { Spans (was m.now).nodes n k result × (result.total ≤ n * 4194304) }
{
    let first = first_page(m, k);
    let end = first + pages_for(memory::node_size(m, k));
    let total = pages_on(m, k + 1, end, n);
    Span { first, end, total }
}

// ---- changes of nodes and open files

// One more node, behind the others; it has no pages.
pub fn add_node(m: &mut [u8], n: usize, row: [u8; memory::NODE_WIDTH])
    requires { (n < NODES) × ((node_of row).size ≡ 0) × IsMemory m.old }
    ensures by_index { (o : ℕ) → view_of (n + 1) o (mem_of m.new) ≡ with_node (node_of row) (view_of n o (was m.old)) }
    ensures keeps_length { KeepsLength m }
{
    memory::put_node(m, n, row);
}

// Node k is taken out; those behind it move up, and so do their digests.
pub fn remove_node(m: &mut [u8], n: usize, k: usize)
    requires { (k < n) × (n ≤ NODES) × (page_total (take n (mem_of m.old).nodes) ≤ PAGES) × IsMemory m.old }
    ensures by_index { (o : ℕ) → view_of (n - 1) o (mem_of m.new) ≡ without_node k (view_of n o (was m.old)) }
    ensures keeps_length { KeepsLength m }
{
    let s = pages_of(m, n, k);
    memory::move_digests(m, s.end, s.first, s.total - s.end);
    memory::move_nodes(m, k + 1, k, n - (k + 1));
}

// One more open file, behind the others.
pub fn add_open(m: &mut [u8], o: usize, row: [u8; memory::OPEN_WIDTH])
    requires { (o < open_rows) × IsMemory m.old }
    ensures by_index { (n : ℕ) → view_of n (o + 1) (mem_of m.new) ≡ with_open (open_of row) (view_of n o (was m.old)) }
    ensures keeps_length { KeepsLength m }
{
    memory::put_open(m, o, row);
}

// Open file k is taken out; those behind it move up.
pub fn remove_open(m: &mut [u8], o: usize, k: usize)
    requires { (k < o) × (o ≤ open_rows) × IsMemory m.old }
    ensures by_index { (n : ℕ) → view_of n (o - 1) (mem_of m.new) ≡ without_open k (view_of n o (was m.old)) }
    ensures keeps_length { KeepsLength m }
{
    memory::move_opens(m, k + 1, k, o - (k + 1));
}

// Whether these bytes are page i of node k: their SHA-256 is the kept one. Where no digest can stand, none is kept.
pub fn is_page(m: &[u8], k: usize, i: usize, page: &[u8]) -> bool
    requires { (k < NODES) × (i < 4194304) × IsMemory m.now }
    ensures { (n : ℕ) → k < n → n ≤ NODES → i < pages_for (node_at (was m.now).nodes k).size
        → page_total (nodes_of n m.now) ≤ PAGES → result ≡ equal (sha256 page.now)
        (get_or (get_or (divide (nodes_of n m.now) (was m.now).digests) k []) i []) }
{
    let at = first_page(m, k) + i;
    if limits::PAGES <= at {
        return false;
    }
    let d = digest::sha256(page);
    buffers::same(&d, memory::digest(m, at))
}

// How many pages all files have where node k is of this size.
pub fn pages_with(m: &[u8], n: usize, k: usize, size: u32) -> usize
    requires { (k < n) × (n ≤ NODES) × IsMemory m.now }
    ensures { result ≡ page_total (set_size (nodes_of n m.now) k size) }
{
    let s = pages_of(m, n, k);
    s.first + pages_for(size) + (s.total - s.end)
}

// How many rows of digests stand behind those of node k, which end at `end`. Where the file keeps its count of pages
// none is moved, and none is
// counted.
fn rows_moved(m: &[u8], n: usize, k: usize, end: usize, old: usize, new: usize) -> usize
    requires { (k < n) × (n ≤ NODES) × (end ≡ page_total (take (k + 1) (mem_of m.now).nodes))
        × (end ≤ (k + 1) * 4194304) × IsMemory m.now }
    ensures { (result ≡ pick (eqb old new) 0 (page_total (nodes_of n m.now) - end)) × (result ≤ n * 4194304) }
{
    if old == new {
        return 0;
    }
    pages_on(m, k + 1, end, n) - end
}

// The rows of a file whose size changes: where they begin, how many they are before and after, and how many behind them
// move.
#[derive(Clone, Copy)]
struct Resize {
    first: usize,
    old: usize,
    new: usize,
    behind: usize,
}

// The same of file k among the first n.
fn rows_of(m: &[u8], n: usize, k: usize, size: u32) -> Resize
    requires { (k < n) × (n ≤ NODES) × IsMemory m.now }
    ensures { Resizes (was m.now).nodes n k size result × Bounded result }
{
    let first = first_page(m, k);
    let old = pages_for(memory::node_size(m, k));
    let new = pages_for(size);
    let behind = rows_moved(m, n, k, first + old, old, new);
    Resize {
        first,
        old,
        new,
        behind,
    }
}

// Whether the rows have room for a change.
fn has_room(s: Resize, from: usize, count: usize) -> bool
    requires { Bounded s }
    ensures { (result ≡ true → Room s from count) × (Room s from count → result ≡ true) }
{
    if limits::PAGES < s.first + s.old + s.behind {
        return false;
    }
    if limits::PAGES < s.first + s.new + s.behind {
        return false;
    }
    if s.old < from {
        return false;
    }
    if memory::NEW_DIGESTS < count {
        return false;
    }
    from + count <= s.new
}

// A change of file k that can be done: its size, and the `count` staged digests for its pages from `from` on. The rows
// behind its pages move to
// where these end.
pub fn change_file(m: &mut [u8], n: usize, k: usize, size: u32, from: usize, count: usize) -> bool
    requires { (n ≤ NODES) × IsMemory m.old }
    ensures value { Changeable (nodes_of n m.old) k size from count → (result ≡ true)
        × ((blank : List ℕ) (o : ℕ) → view_of n o (mem_of m.new) ≡ with_change blank k size from
        (staged_digests count (was m.old).staged) (view_of n o (was m.old))) }
    ensures m_unchanged { result ≡ false → m.new ≡ m.old }
    ensures keeps_length { KeepsLength m }
{
    if n <= k {
        return false;
    }
    let s = rows_of(m, n, k, size);
    if !has_room(s, from, count) {
        return false;
    }
    memory::move_digests(m, s.first + s.old, s.first + s.new, s.behind);
    memory::keep_digests(m, s.first + from, count);
    memory::set_size(m, k, size);
    true
}

// The same digest in `count` rows from `at` on.
fn put_rows(m: &mut [u8], at: usize, count: usize, d: [u8; limits::DIGEST_BYTES])
    requires { (at + count ≤ PAGES) × IsMemory m.old }
    ensures { Becomes m (with_digests (overwrite (was m.old).digests at (replicate count d))) }
{
    // i of them are written
    for i in 0..count {
        memory::put_digest(m, at + i, d);
    }
}

// File k grown to this size: each added page has the digest of the page of zeros. The rows behind its pages move to
// where these end; inside the last page no row is looked at.
pub fn grow_file(m: &mut [u8], n: usize, k: usize, size: u32) -> bool
    requires { (n ≤ NODES) × IsMemory m.old }
    ensures value { Growable (nodes_of n m.old) k size → (result ≡ true)
        × ((o : ℕ) → view_of n o (mem_of m.new) ≡ with_change (sha256 zero_page) k size 0 []
        (view_of n o (was m.old))) }
    ensures m_unchanged { result ≡ false → m.new ≡ m.old }
    ensures keeps_length { KeepsLength m }
{
    if n <= k {
        return false;
    }
    if pages_for(size) == pages_for(memory::node_size(m, k)) {
        memory::set_size(m, k, size);
        return true;
    }
    let s = rows_of(m, n, k, size);
    if !has_room(s, s.old, 0) {
        return false;
    }
    memory::move_digests(m, s.first + s.old, s.first + s.new, s.behind);
    let blank = zero_page::digest();
    put_rows(m, s.first + s.old, s.new - s.old, blank);
    memory::set_size(m, k, size);
    true
}
