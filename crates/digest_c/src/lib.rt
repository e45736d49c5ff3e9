// SHA-256 for programs in other languages: include/guard_sha256.h.
#![tactic(auto)]

ghost use Rattle.std.specs.Prelude.{◌≡◌};
ghost use Rattle.digest.specs.Sha256.{sha256};

// The digest of a message.
#[unsafe(no_mangle)]
pub extern "C" fn guard_sha256(message: &[u8], out: &mut [u8; 32])
    ensures { out.new ≡ sha256 message.now }
{
    digest::guard_sha256(message, out);
}
