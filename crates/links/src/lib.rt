// Places that lead to other places, in arrays of bytes: places in buckets, to find one without a search of all; and
// places that lead up to place 0, each with a length, to measure the way there.
#![tactic(auto)]

ghost use Rattle.std.specs.Prelude.{true, false, ◌≡◌, ◌+◌, ◌≤◌, ◌<◌, length};
ghost use Rattle.filesystem.specs.Tables.{NODES, PATH_BYTES};
ghost use Rattle.links.specs.Buckets.{BUCKETS, inserted};
ghost use Rattle.links.specs.Climbs.{Leads, Linked, Climbs, Alike, Reach};

pub const BUCKETS: usize = 256;

// Place i, put first into bucket b.
pub fn insert(index: &mut [u8], b: usize, i: usize)
    requires { (b < BUCKETS) × (i < NODES) × (length index.old ≡ BUCKETS + NODES) }
    ensures { index.new ≡ inserted index.old b i }
{
    index[BUCKETS + i] = index[b];
    index[b] = i as u8;
}

// How long the way is from place k up to place 0; none where it is longer than `PATH_BYTES`, or there is no way.
pub fn climb(to: &[u8], far: &[u8], n: usize, k: usize) -> Option<usize>
    requires { (k < n) × Linked to.now far.now n }
    ensures { Climbs to.now far.now k result }
{
    let mut total: usize = 0;
    let mut a = k;
    // `total` from k to a; each place says which is next, so no index is counted
    while 0 < a {
        total += far[a] as usize;
        if limits::PATH_BYTES < total {
            return None;
        }
        a = to[a] as usize;
    }
    Some(total)
}

// Each place on the way of this length from k leads straight to place 0, so that no later climb goes there again.
fn shorten(to: &mut [u8], far: &mut [u8], n: usize, k: usize, total: usize)
    requires { (k < n) × (total ≤ PATH_BYTES) × Linked to.old far.old n
        × Leads to.old far.old k total }
    ensures { Linked to.new far.new n
        × Alike to.old far.old to.new far.new }
{
    let mut a = k;
    let mut left = total;
    // `left` from a to place 0; each place says which is next
    while 0 < a {
        let next = to[a] as usize;
        let step = far[a] as usize;
        to[a] = 0;
        far[a] = left as u8;
        left -= step;
        a = next;
    }
}

// Whether each of the first n places leads to place 0, and by no more than `PATH_BYTES`.
pub fn all_climb(to: &mut [u8], far: &mut [u8], n: usize) -> bool
    requires { Linked to.old far.old n }
    ensures { Reach to.old far.old n result }
{
    // the places before k do
    for k in 1..n {
        let Some(total) = climb(to, far, n, k) else {
            return false;
        };
        shorten(to, far, n, k, total);
    }
    true
}
