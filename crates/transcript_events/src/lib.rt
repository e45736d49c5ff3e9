// Events handed to a guard in hexadecimal digits: what comes back is the line of the answer, in deskrun's words.
#![tactic(auto)]

ghost use Rattle.transcript_events.specs.Handed.{MadeFresh};

pub mod handed;
pub mod images;

// The most bytes of an event.
const EVENT_BYTES: usize = 65552;

// The lengths of both buffers that are lent.
#[derive(Clone, Copy, Debug, PartialEq, Eq)]
pub struct Lengths {
    pub answer: usize,
    pub request: usize,
}

// The entry that bytes are handed to.
#[derive(Clone, Copy, Debug, PartialEq, Eq)]
pub enum Entry {
    Call,
    ReaderCall,
    Reply,
}

// The longest buffers that are lent: a longer one than the least is lent as such.
pub const ANSWER_ROOM: usize = 2 * guard::ANSWER_LENGTH;

pub const REQUEST_ROOM: usize = 2 * guard::REQUEST_LENGTH;

// A fresh guard, and the least lengths.
pub fn fresh(memory: &mut [u8]) -> Lengths
    ensures { MadeFresh memory.old result memory.new }
{
    guard::on_fresh(memory);
    Lengths {
        answer: guard::ANSWER_LENGTH,
        request: guard::REQUEST_LENGTH,
    }
}
