// The message schedule of FIPS 180-4 §6.2.2, step 1: a window of sixteen words that moves along it.
ghost use Rattle.std.specs.Prelude.{◌≡◌, ◌+◌, ◌≤◌, length};
ghost use Rattle.compression.specs.Compression.{word};
ghost use Rattle.compression.specs.Windows.{mixed, loaded, slid};

use crate::words::{lower_sigma0, lower_sigma1};

// W_t, from W_{t-2}, W_{t-7}, W_{t-15} and W_{t-16}.
pub fn mix(p: u32, q: u32, r: u32, s: u32) -> u32
    ensures { result ≡ mixed p q r s }
{
    lower_sigma1(p)
        .wrapping_add(q)
        .wrapping_add(lower_sigma0(r))
        .wrapping_add(s)
}

// The sixteen words from one further on.
pub fn slide(w: [u32; 16]) -> [u32; 16]
    ensures { result ≡ slid w }
{
    [
        w[1],
        w[2],
        w[3],
        w[4],
        w[5],
        w[6],
        w[7],
        w[8],
        w[9],
        w[10],
        w[11],
        w[12],
        w[13],
        w[14],
        w[15],
        mix(w[14], w[9], w[1], w[0]),
    ]
}

// The word at byte i, its most significant byte first.
pub fn word_at(m: &[u8], i: usize) -> u32
    requires { i + 4 ≤ length m.now }
    ensures { result ≡ word m.now i }
{
    u32::from_be_bytes(m[i..i + 4].try_into().unwrap())
}

// The sixteen words of the block that starts at byte i. Over `array::from_fn` the proof did not close.
pub fn load(m: &[u8], i: usize) -> [u32; 16]
    requires { i + 64 ≤ length m.now }
    ensures { result ≡ loaded m.now i }
{
    [
        word_at(m, i),
        word_at(m, i + 4),
        word_at(m, i + 8),
        word_at(m, i + 12),
        word_at(m, i + 16),
        word_at(m, i + 20),
        word_at(m, i + 24),
        word_at(m, i + 28),
        word_at(m, i + 32),
        word_at(m, i + 36),
        word_at(m, i + 40),
        word_at(m, i + 44),
        word_at(m, i + 48),
        word_at(m, i + 52),
        word_at(m, i + 56),
        word_at(m, i + 60),
    ]
}
