// The read-only guard: one more entry for calls. Its memory, replies, saves and loads are the guard's.
ghost use Rattle.std.specs.Prelude.{◌≡◌};
ghost use Rattle.refusals.specs.Numbers.{number_of};
ghost use Rattle.guard.specs.Entries.{ReaderCalled};
ghost use Rattle.guard.specs.Numbers.{refusal_number};
ghost use Rattle.guard.specs.Promise.{Shown};

use outcomes::Outcome;
use refusals::Refusal;

// Why a call that is not taken is refused: 34 of a memory that is too short, 5, 114, 34, then its own number.
fn refusal(memory: &[u8], answer: usize, request: usize, own: Refusal) -> Refusal
    ensures { number_of result ≡ refusal_number memory.now answer request (number_of own) }
{
    if memory.len() < memory::SIZE {
        return Refusal::ShortBuffer;
    }
    if let Some(first) = super::first_refusal(
        &memory[..memory::SIZE],
        Some(Refusal::Pending),
        None,
    ) {
        return first;
    }
    if super::is_short(answer, request) {
        return Refusal::ShortBuffer;
    }
    own
}

// A call: one that is taken goes the guard's way.
pub fn on_call(memory: &mut [u8], bytes: &[u8], answer: &mut [u8], request: &mut [u8]) -> Outcome
    ensures { ReaderCalled memory bytes.now answer request result }
{
    let Some(own) = read_only_calls::refusal(bytes) else {
        return super::on_call(memory, bytes, answer, request);
    };
    Outcome::Refused(refusal(memory, answer.len(), request.len(), own))
}

// By the guard's entry and not by `on_call`, so that the guard's code stands once in the archive.
pub fn guard_entry_reader_call(
    memory: &mut [u8],
    bytes: &[u8],
    answer: &mut [u8],
    request: &mut [u8],
) -> super::GuardOutcome
    ensures { Shown (ReaderCalled memory bytes.now answer request) result }
{
    let Some(own) = read_only_calls::refusal(bytes) else {
        return super::guard_entry_call(memory, bytes, answer, request);
    };
    let refusal = refusal(memory, answer.len(), request.len(), own);
    super::shown(Outcome::Refused(refusal))
}
