// The bytes of a hash value.
ghost use Rattle.std.specs.Prelude.{◌≡◌};
ghost use Rattle.digest.specs.Sha256.{bytes};

use compression::State;

// Each word's bytes, the most significant first.
pub fn state_bytes(s: State) -> [u8; 32]
    ensures { result ≡ bytes s }
{
    let words = [
        s.a.to_be_bytes(),
        s.b.to_be_bytes(),
        s.c.to_be_bytes(),
        s.d.to_be_bytes(),
        s.e.to_be_bytes(),
        s.f.to_be_bytes(),
        s.g.to_be_bytes(),
        s.h.to_be_bytes(),
    ];
    words.as_flattened().try_into().unwrap()
}
