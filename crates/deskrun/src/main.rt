// The program `deskrun` (SPECIFICATION 12): a fresh guard, lines from standard input, one line out for each. Before it
// waits for input it has written every answer; it never holds more than one buffer of input and one of output.
#![tactic(auto)]

ghost use Rattle.std.specs.Prelude.{◌+◌, ◌*◌, ◌≤◌, length, IfSome};
ghost use Rattle.desk_lines.specs.Lines.{most_bytes};

use std::io::Read;

// A line that is longer than any good one is bad, whatever follows: of such a line this much is kept.
const TOO_LONG: usize = desk_lines::LINE_READ + 1;

const TEXT: usize = 65536;

fn say(rt: &impl Print, text: &[u8]) {
    let _ = rt.write_all(text);
}

// Every line that ends in the text: the place behind the last.
fn answer_all(rt: &impl Print, memory: &mut [u8], text: &[u8]) -> usize
    ensures { result ≤ length text.now }
{
    let mut out = [0u8; 65536];
    let mut rest = text;
    // how far a turn comes is what answer_lines says, so no index is counted
    while !rest.is_empty() {
        let answered = desk::answer_lines(memory, rest, &mut out);
        if answered.at == 0 {
            break;
        }
        say(rt, &out[..answered.filled]);
        rest = &rest[answered.at..];
    }
    text.len() - rest.len()
}

// The last line, where no line feed ends it; it is one if it has a byte.
fn answer_last(rt: &impl Print, memory: &mut [u8], text: &[u8]) {
    if text.is_empty() {
        return;
    }
    let mut out = [0u8; 65536];
    let n = desk::answer_line(memory, text, &mut out);
    say(rt, &out[..n]);
}

// One read, and what it brings answered: how many bytes at the front of the text are then a line's that has not ended.
// None where the input has.
fn turn<R: Read>(
    rt: &impl Print,
    input: &mut R,
    memory: &mut [u8],
    text: &mut [u8],
    kept: usize,
) -> Option<usize>
    requires { kept ≤ length text.old }
    ensures { IfSome result (λ n. n ≤ 3 + 2 * most_bytes) }
{
    let n = line_input::read_on(input, text, kept);
    if n == 0 {
        answer_last(rt, memory, &text[..kept]);
        return None;
    }
    let end = kept + n;
    // what was kept holds no line feed
    if text::line::end(&text[..end], kept) == end {
        return Some(end.min(TOO_LONG));
    }
    let at = answer_all(rt, memory, &text[..end]);
    Some(line_input::keep(text, at, end, TOO_LONG))
}

fn main(rt: HostRuntime) {
    let mut input = rt.stdin();
    let mut memory = [0u8; memory::SIZE];
    guard::on_fresh(&mut memory);
    let mut text = [0u8; TEXT];
    let mut kept = 0;
    // nothing says that the input ends, so the turns are counted, up to a number that no input comes to
    for _ in 0..u64::MAX {
        let Some(n) = turn(&rt, &mut input, &mut memory, &mut text, kept) else {
            return;
        };
        kept = n;
    }
}
