// What comes back of an event: exactly one of four things. `answer_in` (specs/Values.antt) says which answer of the
// machine an outcome and the caller's buffers are.
#![tactic(auto)]

use guard_state::Guard;
use refusals::{Refusal, StopReason};

// The least length of the answer buffer: the longest listing. No event that is right is longer.
pub const ANSWER_LENGTH: usize = (Guard::NODES - 1) * (Guard::ID_BYTES + 2 + Guard::NAME_BYTES);

#[derive(Clone, Copy, PartialEq, Eq)]
pub enum Outcome {
    // a number, and how many bytes stand at the front of the answer buffer
    Done { number: u64, length: usize },
    // how many bytes stand at the front of the request buffer
    Ask(usize),
    Refused(Refusal),
    Stopped(StopReason),
}
