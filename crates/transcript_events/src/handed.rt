// Calls and replies.
ghost use Rattle.std.specs.Prelude.{◌≡◌, ◌+◌, ◌*◌, ◌≤◌, length, min};
ghost use Rattle.text.specs.Hex.{decode_of};
ghost use Rattle.guard.specs.Promise.{buffers};
ghost use Rattle.transcript_lines.specs.Room.{answer_line};
ghost use Rattle.transcript_events.specs.Handed.{zeros, EntryPromise, Answered, AnsweredDigits};

use super::{ANSWER_ROOM, EVENT_BYTES, Entry, Lengths, REQUEST_ROOM};
use outcomes::Outcome;
use transcript_lines::answers::AnswerLine;

fn hand_in(
    memory: &mut [u8],
    bytes: &[u8],
    answer: &mut [u8],
    request: &mut [u8],
    entry: Entry,
) -> Outcome
    ensures { EntryPromise entry memory.old bytes.now (length answer.old) (length request.old) result memory.new
        (buffers answer.old request.old) (buffers answer.new request.new) }
{
    match entry {
        Entry::Call => guard::on_call(memory, bytes, answer, request),
        Entry::ReaderCall => guard::reader::on_call(memory, bytes, answer, request),
        Entry::Reply => guard::on_reply(memory, bytes, answer, request),
    }
}

fn answer_into(
    memory: &mut [u8],
    bytes: &[u8],
    said: &mut AnswerLine,
    answer: &mut [u8],
    request: &mut [u8],
    entry: Entry,
)
    requires { (29 + 2 * length answer.old ≤ answer_line) × (29 + 2 * length request.old ≤ answer_line) }
    ensures { Answered entry memory.old bytes.now answer.old request.old memory.new said.new }
{
    let o = hand_in(memory, bytes, answer, request, entry);
    said.set_outcome(o, answer, request);
}

// With the front of both buffers, as long as is set.
fn answer_bytes(memory: &mut [u8], bytes: &[u8], said: &mut AnswerLine, l: Lengths, entry: Entry)
    ensures { Answered entry memory.old bytes.now (zeros (min l.answer ANSWER_ROOM))
        (zeros (min l.request REQUEST_ROOM)) memory.new said.new }
{
    let mut answer = [0u8; ANSWER_ROOM];
    let mut request = [0u8; REQUEST_ROOM];
    let a = l.answer.min(answer.len());
    let q = l.request.min(request.len());
    answer_into(
        memory,
        bytes,
        said,
        &mut answer[..a],
        &mut request[..q],
        entry,
    );
}

// Digits handed in as a call or a reply.
pub fn answer(memory: &mut [u8], digits: &[u8], said: &mut AnswerLine, l: Lengths, entry: Entry)
    ensures { AnsweredDigits (decode_of digits.now EVENT_BYTES) entry memory.old digits.now
        (zeros (min l.answer ANSWER_ROOM)) (zeros (min l.request REQUEST_ROOM)) memory.new said.new }
{
    let mut bytes = [0u8; EVENT_BYTES];
    match text::hex::decode(digits, &mut bytes) {
        Ok(n) => answer_bytes(memory, desk_lines::first(&bytes, n), said, l, entry),
        Err(_) => said.set_bad(),
    }
}
