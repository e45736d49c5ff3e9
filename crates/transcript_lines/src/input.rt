// The lines of an input of any length, one after the other, through one buffer.
ghost use Rattle.std.specs.Prelude.{◌≡◌, true, not, ◌≤◌, length, IfSome};
ghost use Rattle.lists.specs.Search.{every};
ghost use Rattle.text.specs.Line.{is_newline};

use std::io::Read;

// The most of a line that is kept: one that is longer is cut.
const LINE: usize = 131200;

// The buffer's length: more than the longest line that is kept.
const TEXT: usize = 262144;

// The next line begins at `next`, and the buffer is filled up to `filled`.
#[derive(Drop)]
pub struct Lines<R> {
    input: R,
    buffer: [u8; TEXT],
    next: usize,
    filled: usize,
    ghost within: { (next ≤ filled) × (filled ≤ 262144) },
}

impl<R: Read> Lines<R> {
    pub fn new(input: R) -> Lines<R>
        ensures { (result.next ≡ 0) × (result.filled ≡ 0) }
    {
        Lines {
            input,
            buffer: [0; TEXT],
            next: 0,
            filled: 0,
        }
    }

    // What is not yet a line moved to the front, and more read behind it: whether there was more.
    fn read_more(&mut self) -> bool {
        let kept = line_input::keep(&mut self.buffer, self.next, self.filled, LINE);
        let n = line_input::read_on(&mut self.input, &mut self.buffer, kept);
        self.next = 0;
        self.filled = kept + n;
        n != 0
    }

    // The next line, none at the end of the input. What no line feed ends is no line.
    pub fn next_line(&mut self) -> Option<&[u8]>
        ensures { IfSome result (λ line. (every (λ b. not (is_newline b)) line.now ≡ true)
            × (length line.now ≤ 262144)) }
    {
        // nothing bounds the reads that a line takes, so they are counted up to a number that none comes to
        for _ in 0..u64::MAX {
            let from = self.next;
            let end = text::line::end(&self.buffer[..self.filled], from);
            if end < self.filled {
                self.next = end + 1;
                let lines = &*self;
                return Some(&lines.buffer[from..end]);
            }
            if !self.read_more() {
                return None;
            }
        }
        None
    }
}
