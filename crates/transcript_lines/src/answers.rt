// The line of an answer, in deskrun's words.
ghost use Rattle.std.specs.Prelude.{◌≡◌, [], ◌∷◌, ◌+◌, ◌-◌, ◌*◌, ◌≤◌, length, take};
ghost use Rattle.outcomes.specs.Values.{answer_in};
ghost use Rattle.desk_lines.specs.Lines.{printed, printed_bad};
ghost use Rattle.transcript_lines.specs.Room.{answer_line};
ghost use Rattle.transcript_lines.specs.Said.{behind, with_digest, saved_line};

use outcomes::Outcome;
use std::marker::Model;

// Room for any answer's line.
pub const ANSWER_LINE: usize = 131072;

// The line of the last answer, with its line feed, or nothing.
#[derive(Drop)]
pub struct AnswerLine {
    bytes: [u8; ANSWER_LINE],
    length: usize,
}

impl Model for AnswerLine {
    ghost use Rattle.std.specs.Prelude.{List, ℕ, ◌≤◌, take};
    ghost use Rattle.transcript_lines.specs.Room.{answer_line};

    ghost Value = { List ℕ };

    ghost view = { λ a. take a.length a.bytes };

    ghost invariant = { λ a. a.length ≤ answer_line };
}

impl AnswerLine {
    pub fn new() -> AnswerLine
        ensures { result ≡ [] }
    {
        AnswerLine {
            bytes: [0; ANSWER_LINE],
            length: 0,
        }
    }

    pub fn clear(&mut self)
        ensures { self.new ≡ [] }
    {
        self.length = 0;
    }

    pub fn set_bad(&mut self)
        ensures { self.new ≡ printed_bad }
    {
        self.length = desk_lines::write_bad(&mut self.bytes);
    }

    pub fn set_outcome(&mut self, o: Outcome, answer: &[u8], request: &[u8])
        requires { (29 + 2 * length answer.now ≤ answer_line) × (29 + 2 * length request.now ≤ answer_line) }
        ensures { self.new ≡ printed (answer_in o answer.now request.now) }
    {
        self.length = desk_lines::write_outcome(o, answer, request, &mut self.bytes);
    }

    // The line of a save: that of its outcome, and where it is done the digest behind the image.
    pub fn set_saved(&mut self, o: Outcome, image: &[u8], digest: [u8; 32])
        requires { 29 + 2 * length image.now ≤ answer_line }
        ensures { self.new ≡ saved_line o (printed (answer_in o image.now (63 ∷ []))) digest }
    {
        self.set_outcome(o, image, b"?");
        if let Outcome::Done { .. } = o {
            self.put_digest(digest);
        }
    }

    // A digest behind the line, before its line feed.
    fn put_digest(&mut self, digest: [u8; 32])
        ensures { self.new ≡ with_digest self.old digest }
    {
        let mut digits = [0u8; 64];
        text::hex::encode(&digest, &mut digits);
        self.length = self.length.saturating_sub(1);
        self.put(b" ");
        self.put(&digits);
        self.put(b"\n");
    }

    // x behind the line, where there is room for it.
    fn put(&mut self, x: &[u8])
        ensures { self.new ≡ behind self.old x.now }
    {
        if ANSWER_LINE - self.length < x.len() {
            return;
        }
        buffers::put(&mut self.bytes, self.length, x);
        self.length += x.len();
    }

    // The line without its line feed.
    pub fn text(&self) -> &[u8]
        ensures value { result.now ≡ take (length self.now - 1) self.now }
        ensures within { length self.now ≤ answer_line }
    {
        &self.bytes[..self.length.saturating_sub(1)]
    }
}
