// Rights and paths: whether a mode covers rights, the form of a path on its bytes, and the walk along one in the
// guard's memory.
#![tactic(auto)]

ghost use Rattle.std.specs.Prelude.{◌||◌, ◌≡◌, ◌+◌, ◌-◌, ◌*◌, ◌<◌, ◌≤◌, ltb, length, drop};
ghost use Rattle.lists.specs.Search.{place};
ghost use Rattle.filesystem.specs.Paths.{split};
ghost use Rattle.filesystem.specs.Rights as table;
ghost use Rattle.filesystem.specs.Tables.{NODES, NAME_BYTES, PATH_BYTES};
ghost use Rattle.refusals.specs.Numbers.{numbered, refusal_or_0};
ghost use Rattle.memory.specs.Memories.{IsMemory, nodes_of, was};
ghost use Rattle.tables.specs.View.{FirstPlaces};
ghost use Rattle.paths.specs.Parts.{is_slash, is_end, components_of};
ghost use Rattle.paths.specs.PathForms.{form_of, forms_of, parts_form, is_name, refusal_for};
ghost use Rattle.paths.specs.Walks.{walked, placed, search_number, child_step};

use refusals::Refusal;

// What is wrong with a path's bytes: the form (22), else a length (36).
#[derive(Clone, Copy, PartialEq, Eq)]
pub enum PathFault {
    Malformed,
    TooLong,
}

impl From<PathFault> for Refusal {
    ghost from_gives = { λ f e. e ≡ refusal_for f };

    fn from(fault: PathFault) -> Refusal {
        match fault {
            PathFault::Malformed => Refusal::Invalid,
            PathFault::TooLong => Refusal::TooLong,
        }
    }
}

// Where the last component stands: in the directory in place `parent`, and from `start` on in the path's bytes.
#[derive(Clone, Copy, PartialEq, Eq)]
pub struct Place {
    pub parent: usize,
    pub start: usize,
}

// One entry for each mode and rights: eight modes for rights 1, then for 2, then for 3.
const COVER: [u8; 24] = [
    // rights 1, modes 0 to 7
    0, 0, 0, 0, 1, 1, 1, 1,
    // rights 2, modes 0 to 7
    0, 0, 1, 1, 0, 0, 1, 1,
    // rights 3, modes 0 to 7
    0, 0, 0, 0, 0, 0, 1, // mode 6 reads and writes
    1,
];

// The entry of a mode and rights.
fn cover_entry(mode: u8, rights: u8) -> usize
    ensures { result ≡ 8 * (rights - 1) + mode }
{
    if rights == 0 {
        return mode as usize;
    }
    8 * (rights as usize - 1) + mode as usize
}

// Whether a mode covers rights; past the table it does not.
pub fn covers(mode: u8, rights: u8) -> bool
    ensures { result ≡ table.covers mode rights }
{
    let k = cover_entry(mode, rights);
    if 24 <= k {
        return false;
    }
    COVER[k] == 1
}

// Where the next slash stands, from `at` on, or the path's end.
fn slash_from(path: &[u8], at: usize) -> usize
    requires { at ≤ length path.now }
    ensures { (result ≡ at + place is_slash (drop at path.now)) × (at ≤ result)
        × (result ≤ length path.now) }
{
    // no slash from `at` to i
    for i in at..path.len() {
        if path[i] == b'/' {
            return i;
        }
    }
    path.len()
}

// ---- the form

// Where the part that starts at `at` ends: at a slash, a 0 byte, or the path's end.
fn part_end(path: &[u8], at: usize) -> usize
    requires { at ≤ length path.now }
    ensures { (result ≡ at + place is_end (drop at path.now)) × (at ≤ result)
        × (result ≤ length path.now) }
{
    // no slash and no 0 from `at` to i
    for i in at..path.len() {
        if path[i] == b'/' || path[i] == 0 {
            return i;
        }
    }
    path.len()
}

// Neither empty nor `.` nor `..`.
pub fn is_name(part: &[u8]) -> bool
    ensures { result ≡ is_name part.now }
{
    let n = part.len();
    if n == 0 {
        return false;
    }
    if part[0] != b'.' {
        return true;
    }
    if n == 1 {
        return false;
    }
    if part[1] != b'.' {
        return true;
    }
    n != 2
}

// Whether something long was met, with a part of n bytes.
fn long_with(long: bool, n: usize) -> bool
    ensures { result ≡ (long || ltb NAME_BYTES n) }
{
    long || limits::NAME_BYTES < n
}

// The form of what follows the first slash.
fn parts_form(path: &[u8]) -> Result<(), PathFault>
    requires { 2 ≤ length path.now }
    ensures { result ≡ parts_form (ltb PATH_BYTES (length path.now)) (split (drop 1 path.now)) }
{
    let mut long = limits::PATH_BYTES < path.len();
    let mut at = 1;
    let mut end = part_end(path, 1);
    // the parts before `at` are names; `long` says whether one was long; where a part ends, its bytes say
    while end < path.len() {
        if path[end] == 0 {
            return Err(PathFault::Malformed);
        }
        if !is_name(&path[at..end]) {
            return Err(PathFault::Malformed);
        }
        long = long_with(long, end - at);
        at = end + 1;
        end = part_end(path, at);
    }
    if !is_name(&path[at..end]) {
        return Err(PathFault::Malformed);
    }
    if long_with(long, end - at) {
        return Err(PathFault::TooLong);
    }
    Ok(())
}

// The form of a path, for any bytes.
pub fn form(path: &[u8]) -> Result<(), PathFault>
    ensures { result ≡ form_of path.now }
{
    let n = path.len();
    if n == 0 {
        return Err(PathFault::Malformed);
    }
    if path[0] != b'/' {
        return Err(PathFault::Malformed);
    }
    if n == 1 {
        return Ok(());
    }
    parts_form(path)
}

// The form of two paths of one call: a fault of form of either comes before any length.
pub fn forms(first: &[u8], second: &[u8]) -> Result<(), PathFault>
    ensures { result ≡ forms_of first.now second.now }
{
    match form(first) {
        Ok(()) => form(second),
        Err(PathFault::TooLong) => form(second).and(Err(PathFault::TooLong)),
        Err(PathFault::Malformed) => Err(PathFault::Malformed),
    }
}

// ---- the walk

// Whether node d is a directory that may be searched: 20, 13.
fn check_search(m: &[u8], n: usize, d: usize) -> Result<(), Refusal>
    requires { (d < n) × (n ≤ NODES) × IsMemory m.now }
    ensures { refusal_or_0 result ≡ search_number (nodes_of n m.now) d }
{
    if memory::node_kind(m, d) != limits::DIRECTORY {
        return Err(Refusal::NotDirectory);
    }
    if memory::node_mode(m, d) % 2 != 1 {
        return Err(Refusal::Denied);
    }
    Ok(())
}

// The last step of a walk: the child with this name of node d, or 2.
pub fn last_step(m: &[u8], n: usize, d: usize, name: &[u8]) -> Result<usize, Refusal>
    requires { (d < n) × (n ≤ NODES) × IsMemory m.now }
    ensures { numbered result ≡ child_step (nodes_of n m.now) d name.now }
{
    let Some(k) = tables::find_child(m, n, memory::node_id(m, d), name) else {
        return Err(Refusal::NotFound);
    };
    Ok(k)
}

// Whether two more components and a slash follow the one that ends at `end`.
fn is_deep(path: &[u8], end: usize) -> bool
    requires { end ≤ length path.now }
{
    if path.len() <= end {
        return false;
    }
    let second = slash_from(path, end + 1);
    if path.len() <= second {
        return false;
    }
    slash_from(path, second + 1) < path.len()
}

// Where children begin, for a deep walk: one pass over the nodes costs as much as the searches of three steps. Zeros
// say
// nothing.
fn places_for(m: &[u8], n: usize, deep: bool) -> [u8; limits::NODES]
    requires { (n ≤ NODES) × IsMemory m.now }
    ensures { FirstPlaces (was m.now).nodes n result }
{
    if deep {
        return tables::first_places(m, n);
    }
    [0u8; limits::NODES]
}

// The way to the directory that holds the last component, which may be absent itself; none for the root.
pub fn walk_parent(m: &[u8], n: usize, path: &[u8]) -> Result<Option<Place>, Refusal>
    requires { (0 < n) × (n ≤ NODES) × IsMemory m.now }
    ensures { numbered result ≡ placed (nodes_of n m.now) path.now }
{
    if path.len() < 2 {
        return Ok(None);
    }
    let mut d = 0;
    let mut at = 1;
    let mut end = slash_from(path, 1);
    let firsts = places_for(m, n, is_deep(path, end));
    // d is where the components before `at` lead; where a component ends, its bytes say
    while end < path.len() {
        check_search(m, n, d)?;
        let id = memory::node_id(m, d);
        let Some(k) = tables::find_child_by(m, n, id, &path[at..end], &firsts) else {
            return Err(Refusal::NotFound);
        };
        d = k;
        at = end + 1;
        end = slash_from(path, at);
    }
    check_search(m, n, d)?;
    Ok(Some(Place {
        parent: d,
        start: at,
    }))
}

// The node at the end of a path (SPECIFICATION 7.6): at each component from the left 20, 13, 2.
pub fn walk(m: &[u8], n: usize, path: &[u8]) -> Result<usize, Refusal>
    requires { (0 < n) × (n ≤ NODES) × IsMemory m.now }
    ensures { numbered result ≡ walked (nodes_of n m.now) (components_of path.now) }
{
    match walk_parent(m, n, path)? {
        Some(place) => last_step(m, n, place.parent, &path[place.start..]),
        None => Ok(0),
    }
}
