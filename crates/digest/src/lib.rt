// SHA-256 (FIPS 180-4). Each contract cites the standard's own definition, specs/Sha256.antt.
#![tactic(auto)]

ghost use Rattle.std.specs.Prelude.{◌≡◌};
ghost use Rattle.digest.specs.Sha256.{H0, sha256};
ghost use Rattle.digest.specs.Streaming.{absorbed, finished};

use compression::State;
use output::state_bytes;
use padding::last_blocks;

mod output;
mod padding;

// The hash value before the first block.
pub fn initial() -> State
    ensures { result ≡ H0 }
{
    State {
        a: 0x6a09e667,
        b: 0xbb67ae85,
        c: 0x3c6ef372,
        d: 0xa54ff53a,
        e: 0x510e527f,
        f: 0x9b05688c,
        g: 0x1f83d9ab,
        h: 0x5be0cd19,
    }
}

// The hash value after the whole blocks of `blocks`; bytes after the last whole block are not read.
pub fn absorb(s: State, blocks: &[u8]) -> State
    ensures { result ≡ absorbed s blocks.now }
{
    let mut h = s;
    // h is the hash value after i blocks
    for i in 0..blocks.len() / 64 {
        h = compression::next_hash(h, blocks, 64 * i);
    }
    h
}

// The digest of a message of n bytes, of which `rest` are the last; s is the hash value after the blocks before them.
pub fn finish(s: State, rest: &[u8], n: usize) -> [u8; 32]
    ensures { result ≡ finished s rest.now n }
{
    let h = absorb(s, rest);
    let t = last_blocks(rest, n);
    let h1 = compression::next_hash(h, &t, 0);
    if rest.len() % 64 < 56 {
        state_bytes(h1)
    } else {
        state_bytes(compression::next_hash(h1, &t, 64))
    }
}

// The SHA-256 digest of a message.
pub fn sha256(message: &[u8]) -> [u8; 32]
    ensures { result ≡ sha256 message.now }
{
    finish(initial(), message, message.len())
}

// The digest of a message, into an array that is there; digest_c exports it for programs in other languages.
pub fn guard_sha256(message: &[u8], out: &mut [u8; 32])
    ensures { out.new ≡ sha256 message.now }
{
    *out = sha256(message);
}
