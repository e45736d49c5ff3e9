// The guard's entries for programs in other languages: include/guard.h. No entry requires anything; each promises what
// the guard's function of its name does.
#![tactic(auto)]

ghost use Rattle.guard.specs.Entries.{Called, ReaderCalled, Replied, Saved, Loaded, MadeFresh};
ghost use Rattle.guard.specs.Promise.{Shown};

use guard::GuardOutcome;
use guard_state::Guard;

#[unsafe(no_mangle)]
pub extern "C" fn guard_entry_fresh(memory: &mut [u8]) -> GuardOutcome
    ensures { Shown (MadeFresh memory) result }
{
    guard::guard_entry_fresh(memory)
}

#[unsafe(no_mangle)]
pub extern "C" fn guard_entry_call(
    memory: &mut [u8],
    bytes: &[u8],
    answer: &mut [u8],
    request: &mut [u8],
) -> GuardOutcome
    ensures { Shown (Called memory bytes.now answer request) result }
{
    guard::guard_entry_call(memory, bytes, answer, request)
}

// The read-only guard's.
#[unsafe(no_mangle)]
pub extern "C" fn guard_entry_reader_call(
    memory: &mut [u8],
    bytes: &[u8],
    answer: &mut [u8],
    request: &mut [u8],
) -> GuardOutcome
    ensures { Shown (ReaderCalled memory bytes.now answer request) result }
{
    guard::reader::guard_entry_reader_call(memory, bytes, answer, request)
}

#[unsafe(no_mangle)]
pub extern "C" fn guard_entry_reply(
    memory: &mut [u8],
    bytes: &[u8],
    answer: &mut [u8],
    request: &mut [u8],
) -> GuardOutcome
    ensures { Shown (Replied memory bytes.now answer request) result }
{
    guard::guard_entry_reply(memory, bytes, answer, request)
}

#[unsafe(no_mangle)]
pub extern "C" fn guard_entry_save(
    memory: &mut [u8],
    image: &mut [u8],
    digest: &mut [u8; Guard::DIGEST_BYTES],
) -> GuardOutcome
    ensures { Shown (Saved memory image digest) result }
{
    guard::guard_entry_save(memory, image, digest)
}

#[unsafe(no_mangle)]
pub extern "C" fn guard_entry_load(memory: &mut [u8], image: &[u8], digest: &[u8]) -> GuardOutcome
    ensures { Shown (Loaded memory image.now digest.now) result }
{
    guard::guard_entry_load(memory, image, digest)
}
