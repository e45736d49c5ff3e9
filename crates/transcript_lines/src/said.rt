// What is printed: differences, and answers that are shown.
ghost use Rattle.std.specs.Prelude.{◌≡◌, ◌↔◌, IsTrue};

fn say(rt: &impl Print, text: &[u8]) {
    let _ = rt.write_all(text);
}

fn say_difference(rt: &impl Print, stored: &[u8], answer: &[u8]) {
    say(rt, b"stored   ");
    say(rt, stored);
    say(rt, b"\nanswered ");
    say(rt, answer);
    say(rt, b"\n");
}

// An answer that is stored, and the one that came: whether they are the same.
pub fn judge(rt: &impl Print, stored: &[u8], answer: &[u8]) -> bool
    ensures { IsTrue result ↔ (stored.now ≡ answer.now) }
{
    let is_same = stored == answer;
    if !is_same {
        say_difference(rt, stored, answer);
    }
    is_same
}

// An answer that is shown: the words, and the answer up to its number.
pub fn show(rt: &impl Print, words: &[u8], answer: &[u8]) {
    say(rt, words);
    say(rt, b": ");
    say(rt, super::first_two(answer));
    say(rt, b"\n");
}
