// The Monte Carlo test of the SHA validation system: each message is the last three digests.
ghost use Rattle.std.specs.Prelude.{◌≡◌, ◌++◌};
ghost use Rattle.vectors.specs.Monte.{MD};

// Three digests, one after the other.
fn joined(a: [u8; 32], b: [u8; 32], c: [u8; 32]) -> [u8; 96]
    ensures { result ≡ a ++ (b ++ c) }
{
    let mut m = [0u8; 96];
    buffers::put(&mut m, 0, &a);
    buffers::put(&mut m, 32, &b);
    buffers::put(&mut m, 64, &c);
    m
}

// The digest after a thousand messages from a seed.
pub fn thousand(seed: [u8; 32]) -> [u8; 32]
    ensures { result ≡ MD seed 1002 }
{
    let mut a = seed;
    let mut b = seed;
    let mut c = seed;
    // after i turns a, b and c are the digests i, i + 1 and i + 2
    for _ in 0..1000usize {
        let m = joined(a, b, c);
        let d = digest::sha256(&m);
        a = b;
        b = c;
        c = d;
    }
    c
}
