// The digest of a page of zeros, worked out once: a file that grows gets such pages, and nothing is hashed for them.
#![tactic(auto)]

ghost use Rattle.std.specs.Prelude.{◌≡◌};
ghost use Rattle.digest.specs.Sha256.{sha256};
ghost use Rattle.zero_page.specs.ZeroPage.{zero_page};

const DIGEST_BYTES: usize = limits::DIGEST_BYTES;

pub fn digest() -> [u8; DIGEST_BYTES]
    ensures { result ≡ sha256 zero_page }
{
    [
        0x5f, 0x70, 0xbf, 0x18, 0xa0, 0x86, 0x00, 0x70, 0x16, 0xe9, 0x48, 0xb0, 0x4a, 0xed, 0x3b,
        0x82, 0x10, 0x3a, 0x36, 0xbe, 0xa4, 0x17, 0x55, 0xb6, 0xcd, 0xdf, 0xaf, 0x10, 0xac, 0xe3,
        0xc6, 0xef,
    ]
}
