// The desk: lines read, handed in to the guard, their answers' lines written (SPECIFICATION 12).
#![tactic(auto)]

ghost use Rattle.std.specs.Prelude.{◌+◌, ◌*◌, ◌≤◌, length};
ghost use Rattle.guard.specs.Promise.{Promise, buffers};
ghost use Rattle.desk_lines.specs.Lines.{most_bytes, line_of, line_for};
ghost use Rattle.desk.specs.Answered.{Answers, event_for};
ghost use Rattle.desk.specs.Session.{AnswersLines};

use desk_lines::Entry;
use outcomes::Outcome;

// Bytes handed in at their entry.
fn hand_in(
    memory: &mut [u8],
    entry: Entry,
    bytes: &[u8],
    answer: &mut [u8],
    request: &mut [u8],
) -> Outcome
    ensures { Promise memory.old (event_for entry bytes.now (length answer.old) (length request.old)) result
        memory.new (buffers answer.old request.old) (buffers answer.new request.new) }
{
    match entry {
        Entry::Call => guard::on_call(memory, bytes, answer, request),
        Entry::Reply => guard::on_reply(memory, bytes, answer, request),
    }
}

// A call or a reply, from its bytes.
fn answer(memory: &mut [u8], entry: Entry, bytes: &[u8], out: &mut [u8]) -> usize
    requires { 29 + 2 * most_bytes ≤ length out.old }
    ensures { Answers memory.old (line_for entry bytes.now) result memory.new
        out.old out.new }
{
    let mut answer = [0u8; guard::ANSWER_LENGTH];
    let mut request = [0u8; guard::REQUEST_LENGTH];
    let o = hand_in(memory, entry, bytes, &mut answer, &mut request);
    desk_lines::write_outcome(o, &answer, &request, out)
}

// A line without its line feed: the answer's line, with it, at the front of out; how long it is.
pub fn answer_line(memory: &mut [u8], line: &[u8], out: &mut [u8]) -> usize
    requires { 29 + 2 * most_bytes ≤ length out.old }
    ensures { Answers memory.old (line_of line.now) result memory.new
        out.old out.new }
{
    let mut bytes = [0u8; desk_lines::EVENT_BYTES];
    match desk_lines::read_line(line, &mut bytes) {
        Some(l) => answer(memory, l.entry, desk_lines::first(&bytes, l.length), out),
        None => desk_lines::write_bad(out),
    }
}

// ---- lines one after another

// How far the lines that were answered reach in the text, and how much of out their answers fill.
#[derive(Clone, Copy, Debug, PartialEq, Eq)]
pub struct Answered {
    pub at: usize,
    pub filled: usize,
}

// The lines that end in the text, as long as out has room for any answer.
pub fn answer_lines(memory: &mut [u8], text: &[u8], out: &mut [u8]) -> Answered
    ensures { AnswersLines memory.old text.now result.at result.filled memory.new
        out.old out.new }
{
    let mut at = 0;
    let mut filled = 0;
    // the lines before `at` are answered, in the first `filled` bytes of out; how far a turn comes is known only from
    // where a line and its answer end, so no index is counted
    while desk_lines::LINE_WRITTEN <= out.len() - filled {
        let end = text::line::end(text, at);
        if end == text.len() {
            return Answered { at, filled };
        }
        filled += answer_line(memory, &text[at..end], &mut out[filled..]);
        at = end + 1;
    }
    Answered { at, filled }
}
