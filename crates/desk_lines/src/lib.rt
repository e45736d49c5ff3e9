// One line of the program `deskrun`: read, and the answer's line written (SPECIFICATION 12).
#![tactic(auto)]

ghost use Rattle.std.specs.Prelude.{◌++◌, ◌≡◌, ◌+◌, ◌*◌, ◌≤◌, length, take, drop, MatchOption};
ghost use Rattle.rules.specs.Skeleton.{done, ask};
ghost use Rattle.outcomes.specs.Values.{answer_in};
ghost use Rattle.text.specs.Ascii.{ascii};
ghost use Rattle.text.specs.Digits.{decimal_of};
ghost use Rattle.text.specs.Hex.{hex_of, decode_of, decoded_in};
ghost use Rattle.desk_lines.specs.Lines.{most_bytes, line_of, line_for, hex_line, bad_line, any_bytes};
ghost use Rattle.desk_lines.specs.Lines.{printed, printed_bad, Reads, Prints};
ghost use Rattle.desk_lines.specs.Written.{Room, Writes};

use outcomes::Outcome;
use text::hex::DecodeError;

// The most bytes of a call or a reply: those of the longest listing.
pub const EVENT_BYTES: usize = outcomes::ANSWER_LENGTH;

// The longest line that is read, without its line feed, and room for any that is written.
pub const LINE_READ: usize = 2 + 2 * EVENT_BYTES;

pub const LINE_WRITTEN: usize = 29 + 2 * EVENT_BYTES;

// The entry that a line's bytes are handed to.
#[derive(Clone, Copy, Debug, PartialEq, Eq)]
pub enum Entry {
    Call,
    Reply,
}

// A line, and how many bytes it has put to the front of the buffer.
#[derive(Clone, Copy, Debug, PartialEq, Eq)]
pub struct Line {
    pub entry: Entry,
    pub length: usize,
}

fn decode(digits: &[u8], out: &mut [u8]) -> Result<usize, DecodeError>
    requires { most_bytes ≤ length out.old }
    ensures answer { result ≡ decode_of digits.now most_bytes }
    ensures left { out.new ≡ decoded_in result digits.now out.old }
{
    text::hex::decode(digits, &mut out[..EVENT_BYTES])
}

// The entry that a line's letter stands for, with a blank and digits behind it.
fn entry_of(line: &[u8]) -> Option<Entry>
    ensures { MatchOption result (line_of line.now ≡ bad_line)
        (λ e. (2 ≤ length line.now) × (line_of line.now ≡ hex_line (line_for e) (drop 2 line.now))) }
{
    if text::line::starts(line, b"c ") {
        Some(Entry::Call)
    } else if text::line::starts(line, b"r ") {
        Some(Entry::Reply)
    } else {
        None
    }
}

// What a line means, its bytes at the front of out; none of a bad one.
pub fn read_line(line: &[u8], out: &mut [u8]) -> Option<Line>
    requires { most_bytes ≤ length out.old }
    ensures { Reads (line_of line.now) result out.old out.new }
{
    let entry = entry_of(line)?;
    let length = decode(&line[2..], out).ok()?;
    Some(Line { entry, length })
}

// The first n bytes, or all where there are fewer.
pub fn first(bytes: &[u8], n: usize) -> &[u8]
    ensures { (result.now ≡ take n bytes.now) × (length result.now ≤ length bytes.now) }
{
    &bytes[..n.min(bytes.len())]
}

// A line that is being written: the bytes up to `end`.
#[derive(Drop)]
struct Writer<'a> {
    out: &'a mut [u8],
    end: usize,
}

impl<'a> Writer<'a> {
    fn put(&mut self, x: &[u8])
        requires { Room (length x.now) self.old }
        ensures { Writes x.now self.old self.new }
    {
        buffers::put(self.out, self.end, x);
        self.end += x.len();
    }

    fn put_number(&mut self, n: u64)
        requires { Room 20 self.old }
        ensures { Writes (decimal_of n) self.old self.new }
    {
        let mut digits = [0u8; 20];
        let from = text::decimal::write(n, &mut digits);
        self.put(&digits[from..]);
    }

    fn put_hex(&mut self, bytes: &[u8])
        requires { Room (2 * length bytes.now) self.old }
        ensures { Writes (hex_of bytes.now) self.old self.new }
    {
        text::hex::encode(bytes, &mut self.out[self.end..]);
        self.end += 2 * bytes.len();
    }

    // The bytes, if there are any, behind a blank.
    fn put_any(&mut self, bytes: &[u8])
        requires { Room (1 + 2 * length bytes.now) self.old }
        ensures { Writes (any_bytes bytes.now) self.old self.new }
    {
        if bytes.is_empty() {
            return;
        }
        self.put(b" ");
        self.put_hex(bytes);
    }

    fn put_ask(&mut self, request: &[u8])
        requires { Room (5 + 2 * length request.now) self.old }
        ensures { Writes (printed (ask request.now)) self.old self.new }
    {
        self.put(b"ask ");
        self.put_hex(request);
        self.put(b"\n");
    }

    fn put_done(&mut self, number: u64, bytes: &[u8])
        requires { Room (27 + 2 * length bytes.now) self.old }
        ensures { Writes (printed (done number bytes.now)) self.old self.new }
    {
        self.put(b"done ");
        self.put_number(number);
        self.put_any(bytes);
        self.put(b"\n");
    }

    // A word and a number.
    fn put_counted(&mut self, word: &[u8], number: u64)
        requires { Room (length word.now + 21) self.old }
        ensures { Writes (word.now ++ (decimal_of number ++ ascii "\n")) self.old self.new }
    {
        self.put(word);
        self.put_number(number);
        self.put(b"\n");
    }

    fn put_outcome(&mut self, o: Outcome, answer: &[u8], request: &[u8])
        requires { Room (29 + 2 * length answer.now) self.old × Room (29 + 2 * length request.now) self.old }
        ensures { Writes (printed (answer_in o answer.now request.now)) self.old self.new }
    {
        match o {
            Outcome::Done { number, length } => self.put_done(number, first(answer, length)),
            Outcome::Ask(length) => self.put_ask(first(request, length)),
            Outcome::Refused(refusal) => self.put_counted(b"refused ", refusal.number() as u64),
            Outcome::Stopped(reason) => self.put_counted(b"stopped ", reason.number() as u64),
        }
    }
}

// The line of an outcome and the caller's two buffers, with its line feed, at the front of out: how long it is.
pub fn write_outcome(o: Outcome, answer: &[u8], request: &[u8], out: &mut [u8]) -> usize
    requires { (29 + 2 * length answer.now ≤ length out.old) × (29 + 2 * length request.now ≤ length out.old) }
    ensures { Prints (printed (answer_in o answer.now request.now)) result out.old
        out.new }
{
    let mut line = Writer { out, end: 0 };
    line.put_outcome(o, answer, request);
    line.end
}

// The line of a line that is bad.
pub fn write_bad(out: &mut [u8]) -> usize
    requires { 9 ≤ length out.old }
    ensures { Prints printed_bad result out.old out.new }
{
    let mut line = Writer { out, end: 0 };
    line.put(b"bad line\n");
    line.end
}
