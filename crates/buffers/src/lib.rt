// Strings of bytes in buffers: compared, written over a part, moved within one.
#![tactic(auto)]

ghost use Rattle.std.specs.Prelude.{◌≡◌, ◌+◌, ◌*◌, ◌≤◌, length};
ghost use Rattle.lists.specs.Equal.{equal};
ghost use Rattle.lists.specs.Parts.{part};
ghost use Rattle.numbers.specs.Slices.{Overwritten};

// The N bytes from `at` on.
fn bytes_at<const N: usize>(m: &[u8], at: usize) -> [u8; N]
    requires { at + N ≤ length m.now }
    ensures { result ≡ part at N m.now }
{
    m[at..at + N].try_into().unwrap()
}

// Whether two strings are equal, a byte at a time. With `==` here a search is no longer compiled in place: `find`,
// names of 1 byte, then takes 6,706 instructions where it has 2,348 (bench/tables).
fn same_bytes(a: &[u8], b: &[u8]) -> bool
    requires { length a.now ≡ length b.now }
    ensures { result ≡ equal a.now b.now }
{
    // the first i bytes are alike
    for i in 0..a.len() {
        if a[i] != b[i] {
            return false;
        }
    }
    true
}

// Whether two strings of four to eight bytes are equal: the last four, and the first four. Names of one directory often
// begin alike. One function over the width, which compares arrays, keeps a search from being compiled in place: the
// row `stat, shallow, 256 nodes` of bench/run then has 1.87 of C, over its bar of 1.30.
fn same_to_8(a: &[u8], b: &[u8]) -> bool
    requires { (length a.now ≡ length b.now) × (4 ≤ length a.now) × (length a.now ≤ 8) }
    ensures { result ≡ equal a.now b.now }
{
    let last = a.len() - 4;
    if numbers::u32_at(a, last) != numbers::u32_at(b, last) {
        return false;
    }
    numbers::u32_at(a, 0) == numbers::u32_at(b, 0)
}

// The same for eight to sixteen bytes.
fn same_to_16(a: &[u8], b: &[u8]) -> bool
    requires { (length a.now ≡ length b.now) × (8 ≤ length a.now) × (length a.now ≤ 16) }
    ensures { result ≡ equal a.now b.now }
{
    let last = a.len() - 8;
    if numbers::u64_at(a, last) != numbers::u64_at(b, last) {
        return false;
    }
    numbers::u64_at(a, 0) == numbers::u64_at(b, 0)
}

// The same for sixteen to thirty-two bytes.
fn same_to_32(a: &[u8], b: &[u8]) -> bool
    requires { (length a.now ≡ length b.now) × (16 ≤ length a.now) × (length a.now ≤ 32) }
    ensures { result ≡ equal a.now b.now }
{
    let n = a.len();
    let last = n - 16;
    if !same_to_16(&a[last..n], &b[last..n]) {
        return false;
    }
    same_to_16(&a[0..16], &b[0..16])
}

// Whether two strings are equal. Names and digests are compared without a loop, so that a search is an innermost loop:
// `==` alone misses the bar of bench/tables at `find`, names of 28 bytes (1.21 of C, over 1.15).
pub fn same(a: &[u8], b: &[u8]) -> bool
    ensures { result ≡ equal a.now b.now }
{
    if a.len() != b.len() {
        return false;
    }
    match a.len() {
        4..8 => same_to_8(a, b),
        8..=16 => same_to_16(a, b),
        17..=32 => same_to_32(a, b),
        _ => same_bytes(a, b),
    }
}

// x written over the part of m at `at`, a byte at a time: `copy_from_slice` would ask the C library for memmove. Public
// for a local array that other writes follow: its stores are then merged.
pub fn put_bytes(m: &mut [u8], at: usize, x: &[u8])
    requires { at + length x.now ≤ length m.old }
    ensures { Overwritten m at x.now }
{
    // the first i bytes are written
    for i in 0..x.len() {
        m[at + i] = x[i];
    }
}

// The same for N to 2 * N bytes: the first N and the last N. By bytes alone the longest image's write and load miss
// their bars (bench/tables: 1.47 and 1.57 of C).
fn put_ends<const N: usize>(m: &mut [u8], at: usize, x: &[u8])
    requires { (at + length x.now ≤ length m.old) × (N ≤ length x.now) × (length x.now ≤ 2 * N) }
    ensures { Overwritten m at x.now }
{
    let last = x.len() - N;
    let front = bytes_at::<N>(x, 0);
    let back = bytes_at::<N>(x, last);
    put_bytes(m, at, &front);
    put_bytes(m, at + last, &back);
}

// The same by blocks, each read whole and written whole, and the rest by bytes. Without blocks the longest image's
// write and load miss their bars (1.19 and 1.29 of C).
fn put_blocks(m: &mut [u8], at: usize, x: &[u8])
    requires { at + length x.now ≤ length m.old }
    ensures { Overwritten m at x.now }
{
    let blocks = x.len() / 128;
    // x's first i blocks are written
    for i in 0..blocks {
        put_bytes(m, at + 128 * i, &bytes_at::<128>(x, 128 * i));
    }
    let done = 128 * blocks;
    put_bytes(m, at + done, &x[done..]);
}

// x written over the part of m at `at`.
pub fn put(m: &mut [u8], at: usize, x: &[u8])
    requires { at + length x.now ≤ length m.old }
    ensures { Overwritten m at x.now }
{
    match x.len() {
        0..8 => put_bytes(m, at, x),
        8..=16 => put_ends::<8>(m, at, x),
        17..=32 => put_ends::<16>(m, at, x),
        _ => put_blocks(m, at, x),
    }
}

// n blocks of N bytes moved down, each read whole and written whole: `copy_within` would ask the C library for memmove.
fn move_down<const N: usize>(m: &mut [u8], from: usize, to: usize, n: usize)
    requires { (to ≤ from) × (from + N * n ≤ length m.old) }
    ensures { Overwritten m to (part from (N * n) m.old) }
{
    // the first i blocks are moved
    for i in 0..n {
        let block = bytes_at::<N>(m, from + N * i);
        put_bytes(m, to + N * i, &block);
    }
}

// The same upwards, the last block first.
fn move_up<const N: usize>(m: &mut [u8], from: usize, to: usize, n: usize)
    requires { (from ≤ to) × (to + N * n ≤ length m.old) }
    ensures { Overwritten m to (part from (N * n) m.old) }
{
    // the blocks from i on are moved
    for i in (0..n).rev() {
        let block = bytes_at::<N>(m, from + N * i);
        put_bytes(m, to + N * i, &block);
    }
}

// n bytes of m moved from one place to another; the two may overlap.
pub fn shift(m: &mut [u8], from: usize, to: usize, n: usize)
    requires { (from + n ≤ length m.old) × (to + n ≤ length m.old) }
    ensures { Overwritten m to (part from n m.old) }
{
    // a file that keeps its count of pages moves nothing behind it
    if from == to {
        return;
    }
    let blocks = n / 128;
    let rest = n % 128;
    if to < from {
        let done = 128 * blocks;
        move_down::<128>(m, from, to, blocks);
        move_down::<1>(m, from + done, to + done, rest);
    } else {
        move_up::<128>(m, from + rest, to + rest, blocks);
        move_up::<1>(m, from, to, rest);
    }
}
