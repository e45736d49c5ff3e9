// Lists of events written as lines, each with a letter: what a line does to a guard, and the line of its answer.
// tests/model/transcripts.py writes such lists.
//
//     f NAME              a fresh guard, and buffers of their least lengths; a list of this name begins
//     o NAME              the same with a fresh read-only guard, to which the calls that follow are handed
//     b ANSWER REQUEST    the lengths of both buffers for the calls and replies that follow
//     c CALL              a call, in hexadecimal digits
//     r REPLY             a reply
//     s LENGTH            a save into a buffer of this length
//     l IMAGE DIGEST      a load
//     = ANSWER            the answer to the event above, in deskrun's words
//     p WORDS             these words are printed, with the answer above
#![tactic(auto)]

use transcript_events::{Entry, Lengths};
use transcript_lines::answers::AnswerLine;
use transcript_lines::counts::Counts;

pub mod file;

// A guard's memory, whether calls are handed to its reader, the lengths of both buffers, the line of the last answer,
// and what was counted.
#[derive(Drop)]
struct Session {
    memory: [u8; memory::SIZE],
    read_only: bool,
    lengths: Lengths,
    answer: AnswerLine,
    counts: Counts,
}

impl Session {
    // Before the first list: a fresh guard.
    fn new() -> Session {
        let mut memory = [0u8; memory::SIZE];
        let lengths = transcript_events::fresh(&mut memory);
        Session {
            memory,
            read_only: false,
            lengths,
            answer: AnswerLine::new(),
            counts: Counts::default(),
        }
    }

    fn begin_list(&mut self, read_only: bool) {
        self.lengths = transcript_events::fresh(&mut self.memory);
        self.read_only = read_only;
        self.answer.clear();
        self.counts.add_list();
    }

    fn set_lengths(&mut self, text: &[u8]) {
        let (answer, request) = transcript_lines::fields(text);
        self.lengths = Lengths {
            answer: transcript_lines::number(answer, transcript_events::ANSWER_ROOM),
            request: transcript_lines::number(request, transcript_events::REQUEST_ROOM),
        };
        self.answer.clear();
    }

    fn call_entry(&self) -> Entry {
        if self.read_only {
            Entry::ReaderCall
        } else {
            Entry::Call
        }
    }

    fn hand_in(&mut self, digits: &[u8], entry: Entry) {
        let lengths = self.lengths;
        transcript_events::handed::answer(
            &mut self.memory,
            digits,
            &mut self.answer,
            lengths,
            entry,
        );
    }

    fn judge(&mut self, rt: &impl Print, stored: &[u8]) {
        let is_same = transcript_lines::said::judge(rt, stored, self.answer.text());
        self.counts.add_answer(is_same);
    }

    // One line of a file; one with no letter, or another, does nothing.
    fn take_line(&mut self, rt: &impl Print, line: &[u8]) {
        let Some((letter, text)) = transcript_lines::parted(line) else {
            return;
        };
        match letter {
            b'f' => self.begin_list(false),
            b'o' => self.begin_list(true),
            b'b' => self.set_lengths(text),
            b'c' => self.hand_in(text, self.call_entry()),
            b'r' => self.hand_in(text, Entry::Reply),
            b's' => transcript_events::images::answer_save(
                &mut self.memory,
                text,
                &mut self.answer,
            ),
            b'l' => transcript_events::images::answer_load(
                &mut self.memory,
                text,
                &mut self.answer,
            ),
            b'=' => self.judge(rt, text),
            b'p' => transcript_lines::said::show(rt, text, self.answer.text()),
            _ => {}
        }
    }
}
