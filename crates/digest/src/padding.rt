// The last blocks of a message: FIPS 180-4 §5.1.1 on at most 128 copied bytes.
ghost use Rattle.std.specs.Prelude.{◌≡◌, ◌*◌, ◌/◌, length, drop};
ghost use Rattle.digest.specs.Padding.{with_zeros, last_blocks};

// The message's bytes after its last whole block, and then zeros.
fn rest_of(m: &[u8]) -> [u8; 128]
    ensures { result ≡ with_zeros (drop (length m.now / 64 * 64) m.now) }
{
    let rest = m.len() % 64;
    let mut t = [0; 128];
    t[..rest].copy_from_slice(&m[m.len() - rest..]);
    t
}

// The bytes of the padded message after its last whole block, and then zeros: m has the message's last bytes, n counts
// them all.
pub fn last_blocks(m: &[u8], n: usize) -> [u8; 128]
    ensures { result ≡ last_blocks m.now n }
{
    let rest = m.len() % 64;
    let mut t = rest_of(m);
    t[rest] = 0x80;
    // the length in bits ends the first block, or the second where the rest leaves no room for it
    let end = 56 + rest / 56 * 64;
    t[end..end + 8].copy_from_slice(&(n << 3).to_be_bytes());
    t
}
