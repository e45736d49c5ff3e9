// Lines of a text, and how one begins.
ghost use Rattle.std.specs.Prelude.{◌≡◌, ◌≤◌, length};
ghost use Rattle.std.specs.List.{position};
ghost use Rattle.text.specs.Line.{LineEnd, begins, is_newline};

fn newline_in(text: &[u8]) -> Option<usize>
    ensures { result ≡ position is_newline text.now }
{
    text.iter().position(|c| *c == b'\n')
}

// Where the line that starts at `from` ends. Not compiled in place: in `trials` the loop then takes eight instructions a
// byte, and five here.
#[inline(never)]
pub fn end(text: &[u8], from: usize) -> usize
    requires { from ≤ length text.now }
    ensures { LineEnd text.now from result }
{
    match newline_in(&text[from..]) {
        Some(n) => from + n,
        None => text.len(),
    }
}

// Whether the line begins with the word.
pub fn starts(line: &[u8], word: &[u8]) -> bool
    ensures { result ≡ begins line.now word.now }
{
    line.starts_with(word)
}
