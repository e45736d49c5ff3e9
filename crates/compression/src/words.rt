// Operations on words: FIPS 180-4 §3.2 and §4.1.2.
ghost use Rattle.std.specs.Prelude.{◌≡◌};
ghost use Rattle.compression.specs.Compression.{Ch, Maj, Σ0, Σ1, σ0, σ1};

// Ch and Maj are written in their short forms: as the standard writes them a block takes 3,333 and 3,396 instructions,
// and with these 3,124; the bar is 3,222. Of Maj's x ^ y and y ^ z one is the round before's.
pub fn ch(x: u32, y: u32, z: u32) -> u32
    ensures { result ≡ Ch x y z }
{
    ((y ^ z) & x) ^ z
}

pub fn maj(x: u32, y: u32, z: u32) -> u32
    ensures { result ≡ Maj x y z }
{
    ((x ^ y) & (y ^ z)) ^ y
}

pub fn upper_sigma0(x: u32) -> u32
    ensures { result ≡ Σ0 x }
{
    x.rotate_right(2) ^ x.rotate_right(13) ^ x.rotate_right(22)
}

// Σ1 is nested: each rotation is of the word so far, so that a rotation in place needs no copy. As the standard writes
// it a block takes 3,322 instructions.
pub fn upper_sigma1(x: u32) -> u32
    ensures { result ≡ Σ1 x }
{
    (x ^ (x ^ x.rotate_right(14)).rotate_right(5)).rotate_right(6)
}

pub fn lower_sigma0(x: u32) -> u32
    ensures { result ≡ σ0 x }
{
    x.rotate_right(7) ^ x.rotate_right(18) ^ (x >> 3)
}

pub fn lower_sigma1(x: u32) -> u32
    ensures { result ≡ σ1 x }
{
    x.rotate_right(17) ^ x.rotate_right(19) ^ (x >> 10)
}
