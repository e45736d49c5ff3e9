// An image of any bytes, in any layout (SPECIFICATION 8.6): whether it is sound, whatever the order of its records.
#![tactic(auto)]

ghost use Rattle.std.specs.Prelude.{true, ◌&&◌, ◌≡◌, ◌+◌, ◌*◌, ◌%◌, ◌≤◌, ◌<◌, length};
ghost use Rattle.filesystem.specs.Image.{in_limits, is_named, same_child, sound_nodes, parse};
ghost use Rattle.filesystem.specs.Tables.{NODES, PAGES, page_total};
ghost use Rattle.links.specs.Buckets.{BUCKETS, Indexed};
ghost use Rattle.links.specs.Parents.{Placed};
ghost use Rattle.image_records.specs.Laid.{laid};
ghost use Rattle.image_records.specs.Records.{record_at, record_end, nodes_from, end_from, is_some};
ghost use Rattle.image_reader.specs.Judged.{spread, node_on, Located, Standing, id_at, id_key, name_key};
ghost use Rattle.image_reader.specs.Judged.{Found, OwnId, OwnIds, OwnName, Judges, Apart, Directory, Rooted};

use image_records::Layout;

const INDEX: usize = links::BUCKETS + limits::NODES;

// Where each of the first n records stands.
fn locate(image: &[u8], layout: Layout, n: usize, starts: &mut [u32])
    requires { (n ≤ NODES) × (end_from (laid layout) image.now 4 n ≤ length image.now)
        × (length starts.old ≡ NODES) }
    ensures { Located (laid layout) image.now starts.new n }
{
    let mut at = 4;
    // the i records before `at` are located
    for i in 0..n {
        starts[i] = at as u32;
        at = image_records::record_end(image, layout, at);
    }
}

// ---- a record against those before it

// `image`, `layout` and `starts` stay three parameters: as one struct, copied or lent, judging took 14 percent more
// instructions, since the layout in it is no constant to the compiler.

// The place among the first i records of the one with this id.
fn find_id(
    image: &[u8],
    layout: Layout,
    starts: &[u32],
    ids: &[u8],
    i: usize,
    id: u64,
) -> Option<usize>
    requires { (0 < i) × Standing layout.id_bytes image.now starts.now i
        × Indexed ids.now (id_key layout.id_bytes image.now starts.now) i }
    ensures { Found (id_at layout.id_bytes image.now starts.now) i id result }
{
    let mut k = ids[(id % links::BUCKETS as u64) as usize] as usize;
    // no record of the bucket before k has it; each says which is next, so no index is counted
    while 0 < k {
        if image_records::record_id(image, layout, starts[k] as usize) == id {
            return Some(k);
        }
        k = ids[links::BUCKETS + k] as usize;
    }
    if image_records::record_id(image, layout, starts[0] as usize) == id {
        return Some(0);
    }
    None
}

// Whether record i has an id of its own among those before it; it is put into the index.
fn takes_id(image: &[u8], layout: Layout, starts: &[u32], ids: &mut [u8], i: usize) -> bool
    requires { (0 < i) × Standing layout.id_bytes image.now starts.now (i + 1)
        × Indexed ids.old (id_key layout.id_bytes image.now starts.now) i }
    ensures own_id { OwnId (id_at layout.id_bytes image.now starts.now) i result }
    ensures indexed { result ≡ true
        → Indexed ids.new (id_key layout.id_bytes image.now starts.now) (i + 1) }
{
    let id = image_records::record_id(image, layout, starts[i] as usize);
    if find_id(image, layout, starts, ids, i, id).is_some() {
        return false;
    }
    links::insert(ids, (id % links::BUCKETS as u64) as usize, i);
    true
}

// The bucket of a node with this parent and name.
fn name_bucket(parent: u64, name: &[u8]) -> usize
    ensures { (result ≡ spread (parent % BUCKETS) name.now) × (result < BUCKETS) }
{
    let mut b = (parent % links::BUCKETS as u64) as usize;
    // b is the bucket of the bytes before x
    for x in name {
        b = (b * 31 + *x as usize) % links::BUCKETS;
    }
    b
}

// Whether the records at a and b have one parent and one name.
fn are_siblings(image: &[u8], layout: Layout, a: usize, b: usize) -> bool
    requires { (record_end (laid layout) image.now a ≤ length image.now)
        × (record_end (laid layout) image.now b ≤ length image.now) }
    ensures { result ≡ same_child (record_at (laid layout) image.now a)
        (record_at (laid layout) image.now b) }
{
    if image_records::record_parent(image, layout, a)
        != image_records::record_parent(image, layout, b)
    {
        return false;
    }
    let name = image_records::record_name(image, layout, a);
    buffers::same(name, image_records::record_name(image, layout, b))
}

// Whether record i, which belongs into bucket b, has a name of its own among its siblings before it.
fn is_own_name(
    image: &[u8],
    layout: Layout,
    starts: &[u32],
    names: &[u8],
    i: usize,
    b: usize,
) -> bool
    requires { (0 < i) × Located (laid layout) image.now starts.now (i + 1)
        × Indexed names.now (name_key (laid layout) image.now starts.now) i
        × (b ≡ name_key (laid layout) image.now starts.now i) }
    ensures { OwnName (node_on (laid layout) image.now starts.now) i result }
{
    let at = starts[i] as usize;
    let mut k = names[b] as usize;
    // no record of the bucket before k is a sibling with its name; each says which is next
    while 0 < k {
        if are_siblings(image, layout, starts[k] as usize, at) {
            return false;
        }
        k = names[links::BUCKETS + k] as usize;
    }
    !are_siblings(image, layout, starts[0] as usize, at)
}

// Whether record i has a name of its own among its siblings before it; it is put into the index.
fn takes_name(image: &[u8], layout: Layout, starts: &[u32], names: &mut [u8], i: usize) -> bool
    requires { (0 < i) × Located (laid layout) image.now starts.now (i + 1)
        × Indexed names.old (name_key (laid layout) image.now starts.now) i }
    ensures own_name { OwnName (node_on (laid layout) image.now starts.now) i result }
    ensures indexed { result ≡ true
        → Indexed names.new (name_key (laid layout) image.now starts.now) (i + 1) }
{
    let at = starts[i] as usize;
    let parent = image_records::record_parent(image, layout, at);
    let b = name_bucket(parent, image_records::record_name(image, layout, at));
    if !is_own_name(image, layout, starts, names, i, b) {
        return false;
    }
    links::insert(names, b, i);
    true
}

// Whether the record is within its limits and has a name, by itself.
fn stands(image: &[u8], layout: Layout, at: usize) -> bool
    requires { (record_end (laid layout) image.now at ≤ length image.now) }
    ensures { result ≡ (in_limits layout.id_bytes (record_at (laid layout) image.now at)
        && is_named (record_at (laid layout) image.now at)) }
{
    if !image_records::is_in_limits(image, layout, at) {
        return false;
    }
    image_records::is_named(image_records::record_name(image, layout, at))
}

// Whether the records stand, each by itself, and have ids and names of their own; the root is known to stand. They are
// found by their ids in the index `ids`, which has the root alone at first.
fn are_apart(image: &[u8], layout: Layout, n: usize, starts: &[u32], ids: &mut [u8]) -> bool
    requires { (0 < n) × Located (laid layout) image.now starts.now n
        × Indexed ids.old (id_key layout.id_bytes image.now starts.now) 1
        × (in_limits layout.id_bytes (node_on (laid layout) image.now starts.now 0) ≡ true) }
    ensures { Judges result layout.id_bytes (nodes_from (laid layout) image.now 4 n)
        (Apart layout.id_bytes (node_on (laid layout) image.now starts.now) n
        × Indexed ids.new (id_key layout.id_bytes image.now starts.now) n) }
{
    let mut names = [0u8; INDEX];
    // the first i records do
    for i in 1..n {
        if !stands(image, layout, starts[i] as usize) {
            return false;
        }
        if !takes_id(image, layout, starts, ids, i) {
            return false;
        }
        if !takes_name(image, layout, starts, &mut names, i) {
            return false;
        }
    }
    true
}

// ---- ways to the root

// The place of the directory with this id; ids differ.
fn find_directory(
    image: &[u8],
    layout: Layout,
    starts: &[u32],
    ids: &[u8],
    n: usize,
    id: u64,
) -> Option<usize>
    requires { (0 < n) × Standing layout.id_bytes image.now starts.now n
        × Indexed ids.now (id_key layout.id_bytes image.now starts.now) n
        × OwnIds (id_at layout.id_bytes image.now starts.now) n }
    ensures { Directory layout.id_bytes image.now starts.now n id result }
{
    let k = find_id(image, layout, starts, ids, n, id)?;
    if image_records::record_kind(image, layout, starts[k] as usize) != limits::DIRECTORY {
        return None;
    }
    Some(k)
}

// Whether each record but the root has a directory for its parent. Its place is put into `to`, the bytes of the
// record's name and a slash into `far`.
fn place_parents(
    image: &[u8],
    layout: Layout,
    n: usize,
    starts: &[u32],
    ids: &[u8],
    to: &mut [u8],
    far: &mut [u8],
) -> bool
    requires { (0 < n) × Located (laid layout) image.now starts.now n
        × Indexed ids.now (id_key layout.id_bytes image.now starts.now) n
        × Apart layout.id_bytes (node_on (laid layout) image.now starts.now) n
        × (length to.old ≡ NODES) × (length far.old ≡ NODES) }
    ensures { Judges result layout.id_bytes (nodes_from (laid layout) image.now 4 n)
        (Placed (node_on (laid layout) image.now starts.now) to.new far.new
        n n) }
{
    // the records before k have
    for k in 1..n {
        let at = starts[k] as usize;
        let id = image_records::record_parent(image, layout, at);
        let Some(parent) = find_directory(image, layout, starts, ids, n, id) else {
            return false;
        };
        let name = image_records::record_name(image, layout, at);
        to[k] = parent as u8;
        far[k] = (1 + name.len()) as u8;
    }
    true
}

// Whether each record has a way to the root by its parents, and a path that is short enough.
fn are_rooted(image: &[u8], layout: Layout, n: usize, starts: &[u32], ids: &[u8]) -> bool
    requires { (0 < n) × Located (laid layout) image.now starts.now n
        × Indexed ids.now (id_key layout.id_bytes image.now starts.now) n
        × Apart layout.id_bytes (node_on (laid layout) image.now starts.now) n }
    ensures { Judges result layout.id_bytes (nodes_from (laid layout) image.now 4 n)
        (Rooted (nodes_from (laid layout) image.now 4 n)) }
{
    let mut to = [0u8; limits::NODES];
    let mut far = [0u8; limits::NODES];
    if !place_parents(image, layout, n, starts, ids, &mut to, &mut far) {
        return false;
    }
    links::all_climb(&mut to, &mut far, n)
}

// ---- the whole image

// Whether the first n nodes are sound; they have no more pages than there may be.
fn are_sound(image: &[u8], layout: Layout, n: usize) -> bool
    requires { (n ≤ NODES) × (end_from (laid layout) image.now 4 n ≤ length image.now)
        × (page_total (nodes_from (laid layout) image.now 4 n) ≤ PAGES) }
    ensures { result ≡ sound_nodes layout.id_bytes (nodes_from (laid layout) image.now 4 n) }
{
    if n == 0 {
        return false;
    }
    if !image_records::is_root(image, layout, 4) {
        return false;
    }
    if !image_records::is_in_limits(image, layout, 4) {
        return false;
    }
    let mut starts = [0u32; limits::NODES];
    locate(image, layout, n, &mut starts);
    let mut ids = [0u8; INDEX];
    if !are_apart(image, layout, n, &starts, &mut ids) {
        return false;
    }
    are_rooted(image, layout, n, &starts, &ids)
}

// Whether the image is sound, whatever bytes it has.
pub fn is_sound(image: &[u8], layout: Layout) -> bool
    ensures { result ≡ is_some (parse (laid layout) image.now) }
{
    let Some(end) = image_records::form(image, layout) else {
        return false;
    };
    let n = numbers::u32_at(image, 0) as usize;
    let pages = image_records::page_sum(image, layout, n);
    if numbers::u32_at(image, end) as usize != pages {
        return false;
    }
    if limits::PAGES < pages {
        return false;
    }
    are_sound(image, layout, n)
}
