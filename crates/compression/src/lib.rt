// SHA-256's compression function: one block of 64 bytes into the hash value. Each contract cites the standard's own
// definition, specs/Compression.antt.
#![tactic(auto)]

ghost use Rattle.std.specs.Prelude.{◌≡◌, ◌+◌, ◌≤◌, length};
ghost use Rattle.compression.specs.Compression.{K, block, round, sum, compress};
ghost use Rattle.compression.specs.Windows.{window, Rolling};

use constants::ROUND_CONSTANTS;
use schedule::{load, slide};
use words::{ch, maj, upper_sigma0, upper_sigma1};

mod constants;
mod schedule;
mod words;

// The eight working variables, or the eight words of a hash value.
#[derive(Clone, Copy)]
pub struct State {
    pub a: u32,
    pub b: u32,
    pub c: u32,
    pub d: u32,
    pub e: u32,
    pub f: u32,
    pub g: u32,
    pub h: u32,
}

// A state, and the sixteen words of the schedule that come next.
#[derive(Clone, Copy)]
pub struct Rolled {
    pub state: State,
    pub words: [u32; 16],
}

// One round, with K_t and W_t.
fn one_round(s: State, k: u32, w: u32) -> State
    ensures { result ≡ round s k w }
{
    let t1 = s
        .h
        .wrapping_add(upper_sigma1(s.e))
        .wrapping_add(ch(s.e, s.f, s.g))
        .wrapping_add(k)
        .wrapping_add(w);
    let t2 = upper_sigma0(s.a).wrapping_add(maj(s.a, s.b, s.c));
    State {
        a: t1.wrapping_add(t2),
        b: s.a,
        c: s.b,
        d: s.c,
        e: s.d.wrapping_add(t1),
        f: s.e,
        g: s.f,
        h: s.g,
    }
}

fn state_sum(x: State, y: State) -> State
    ensures { result ≡ sum x y }
{
    State {
        a: x.a.wrapping_add(y.a),
        b: x.b.wrapping_add(y.b),
        c: x.c.wrapping_add(y.c),
        d: x.d.wrapping_add(y.d),
        e: x.e.wrapping_add(y.e),
        f: x.f.wrapping_add(y.f),
        g: x.g.wrapping_add(y.g),
        h: x.h.wrapping_add(y.h),
    }
}

// Sixteen rounds from round t on, with the words w, and beside them the sixteen words after w. The two do not wait for
// each other, so they are done in turn. Compiled in place, so that state and words stay in registers; as a `for`
// over an array of words a block takes 4,916 instructions in place of 3,124.
#[inline(always)]
fn sixteen_rounds(s: State, t: usize, w: [u32; 16]) -> Rolled
    requires { t ≤ 48 }
    ensures { Rolling s (window K t) w result.state result.words }
{
    let s1 = one_round(s, ROUND_CONSTANTS[t], w[0]);
    let w1 = slide(w);
    let s2 = one_round(s1, ROUND_CONSTANTS[t + 1], w1[0]);
    let w2 = slide(w1);
    let s3 = one_round(s2, ROUND_CONSTANTS[t + 2], w2[0]);
    let w3 = slide(w2);
    let s4 = one_round(s3, ROUND_CONSTANTS[t + 3], w3[0]);
    let w4 = slide(w3);
    let s5 = one_round(s4, ROUND_CONSTANTS[t + 4], w4[0]);
    let w5 = slide(w4);
    let s6 = one_round(s5, ROUND_CONSTANTS[t + 5], w5[0]);
    let w6 = slide(w5);
    let s7 = one_round(s6, ROUND_CONSTANTS[t + 6], w6[0]);
    let w7 = slide(w6);
    let s8 = one_round(s7, ROUND_CONSTANTS[t + 7], w7[0]);
    let w8 = slide(w7);
    let s9 = one_round(s8, ROUND_CONSTANTS[t + 8], w8[0]);
    let w9 = slide(w8);
    let s10 = one_round(s9, ROUND_CONSTANTS[t + 9], w9[0]);
    let w10 = slide(w9);
    let s11 = one_round(s10, ROUND_CONSTANTS[t + 10], w10[0]);
    let w11 = slide(w10);
    let s12 = one_round(s11, ROUND_CONSTANTS[t + 11], w11[0]);
    let w12 = slide(w11);
    let s13 = one_round(s12, ROUND_CONSTANTS[t + 12], w12[0]);
    let w13 = slide(w12);
    let s14 = one_round(s13, ROUND_CONSTANTS[t + 13], w13[0]);
    let w14 = slide(w13);
    let s15 = one_round(s14, ROUND_CONSTANTS[t + 14], w14[0]);
    let w15 = slide(w14);
    let s16 = one_round(s15, ROUND_CONSTANTS[t + 15], w15[0]);
    let w16 = slide(w15);
    Rolled {
        state: s16,
        words: w16,
    }
}

// The hash value after the block that starts at byte i.
pub fn next_hash(s: State, m: &[u8], i: usize) -> State
    requires { i + 64 ≤ length m.now }
    ensures { result ≡ compress s (block m.now i) }
{
    let first = sixteen_rounds(s, 0, load(m, i));
    let second = sixteen_rounds(first.state, 16, first.words);
    let third = sixteen_rounds(second.state, 32, second.words);
    let last = sixteen_rounds(third.state, 48, third.words);
    state_sum(last.state, s)
}
