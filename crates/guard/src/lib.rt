// The guard: one memory that the caller lends, and its entries. No entry requires anything; what each promises stands
// in specs/Promise.antt.
// Functions with `m` work on a memory of just the guard's size; the entries lend them the front of what they get.
#![tactic(auto)]

ghost use Rattle.std.specs.Prelude.{◌||◌, [], ◌≡◌, ltb, length};
ghost use Rattle.filesystem.specs.Image.{current};
ghost use Rattle.filesystem.specs.Tables.{DIGEST_BYTES};
ghost use Rattle.rules.specs.Skeleton.{call, reply, save, load, answer_length, request_length};
ghost use Rattle.machine.specs.Machine.{fresh, guard as digest_store};
ghost use Rattle.configuration.specs.Delivered.{delivered};
ghost use Rattle.numbers.specs.Slices.{KeepsLength};
ghost use Rattle.refusals.specs.Numbers.{number_or_0};
ghost use Rattle.memory.specs.Memories.{IsMemory};
ghost use Rattle.outcomes.specs.Sent.{settled};
ghost use Rattle.guard.specs.Entries.{Takes, Called, Replied, Saved, Loaded, MadeFresh};
ghost use Rattle.guard.specs.Numbers.{waits};
ghost use Rattle.guard.specs.Promise.{held, first_of, Ready, Steps, Saving, Shown, shown_as};

use guard_state::Guard;
use outcomes::Outcome;
use refusals::Refusal;

pub mod reader;

// The least lengths of the answer buffer, for the longest listing, and of the request buffer, for a store.
pub const ANSWER_LENGTH: usize = outcomes::ANSWER_LENGTH;

pub const REQUEST_LENGTH: usize = requests::STORE_LENGTH;

// What C sees of an outcome: 0 done, 1 a request, 2 refused, 3 stopped; its number; how many bytes stand at the front
// of the answer or the request buffer. Numbers, not an enum: include/guard.h has them.
#[repr(C)]
#[derive(Clone, Copy)]
pub struct GuardOutcome {
    pub kind: i32,
    pub number: u64,
    pub length: usize,
}

// ---- events

// Whether a call is pending, by its number (guard_state::calls).
fn is_pending(number: u64) -> bool
    ensures { result ≡ waits number }
{
    number != guard_state::calls::IDLE && number <= guard_state::calls::LAST
}

// Why an event is refused before what it hands in is looked at: 5, then `busy` where a call is pending and `quiet`
// where none is.
fn first_refusal(m: &[u8], busy: Option<Refusal>, quiet: Option<Refusal>) -> Option<Refusal>
    requires { IsMemory m.now }
    ensures { number_or_0 result ≡ first_of (number_or_0 busy) (number_or_0 quiet) (held m.now).skeleton }
{
    let g = Guard::load(m);
    if g.stopped {
        return Some(Refusal::Stopped);
    }
    if is_pending(g.call) {
        return busy;
    }
    quiet
}

// Whether one of the caller's buffers is too short.
fn is_short(answer: usize, request: usize) -> bool
    ensures { result ≡ (ltb answer (answer_length delivered) || ltb request (request_length delivered)) }
{
    answer < ANSWER_LENGTH || request < REQUEST_LENGTH
}

// The one place where the guard stops: whichever branch found a reason, it is for good.
fn settle(m: &mut [u8], o: Outcome) -> Outcome
    requires { IsMemory m.old }
    ensures value { (result ≡ o) × (held m.new ≡ settled delivered o (held m.old)) }
    ensures keeps_length { KeepsLength m }
{
    let Outcome::Stopped(reason) = o else {
        return o;
    };
    guard_state::stop(m);
    o
}

// A call: 5, 114, 34, then what its bytes say.
fn take_call(m: &mut [u8], bytes: &[u8], answer: &mut [u8], request: &mut [u8]) -> Outcome
    requires { IsMemory m.old }
    ensures takes { Takes call m bytes.now answer request result }
    ensures keeps_length { KeepsLength m }
{
    if let Some(refusal) = first_refusal(m, Some(Refusal::Pending), None) {
        return Outcome::Refused(refusal);
    }
    if is_short(answer.len(), request.len()) {
        return Outcome::Refused(Refusal::ShortBuffer);
    }
    let o = call_dispatch::begin_call(m, bytes, request);
    settle(m, o)
}

// A reply: 5, 61, 34, then what the pending call makes of it.
fn take_reply(m: &mut [u8], bytes: &[u8], answer: &mut [u8], request: &mut [u8]) -> Outcome
    requires { IsMemory m.old }
    ensures takes { Takes reply m bytes.now answer request result }
    ensures keeps_length { KeepsLength m }
{
    if let Some(refusal) = first_refusal(m, None, Some(Refusal::NotPending)) {
        return Outcome::Refused(refusal);
    }
    if is_short(answer.len(), request.len()) {
        return Outcome::Refused(Refusal::ShortBuffer);
    }
    let o = reply_dispatch::accept_reply(m, bytes, answer, request);
    settle(m, o)
}

// A save: 5, 114, then 16, 34, or the image and its digest.
fn take_save(m: &mut [u8], image: &mut [u8], digest: &mut [u8]) -> Outcome
    requires { (length digest.old ≡ DIGEST_BYTES) × IsMemory m.old }
    ensures saving { Ready (held m.old) (save (length image.old))
        → Saving (held m.old) result (held m.new) image.old image.new
        digest.old digest.new }
    ensures keeps_length { KeepsLength m }
{
    if let Some(refusal) = first_refusal(m, Some(Refusal::Pending), None) {
        return Outcome::Refused(refusal);
    }
    saves::save(m, image, digest)
}

// A load: 5, 114, then 16, 74, 84, or the image's tables. Only the first numbers are shared with a save: its buffers
// and its promise are different.
fn take_load(m: &mut [u8], image: &[u8], digest: &[u8]) -> Outcome
    requires { IsMemory m.old }
    ensures steps { Steps (held m.old) (load current image.now digest.now) result
        (held m.new) [] [] }
    ensures keeps_length { KeepsLength m }
{
    if let Some(refusal) = first_refusal(m, Some(Refusal::Pending), None) {
        return Outcome::Refused(refusal);
    }
    saves::load(m, image, digest)
}

// ---- entries: a memory that is too short holds no guard. Each hands on the front of it. One function for all, which
// took the rest as a closure, would have to carry each entry's own promise.

pub fn on_call(memory: &mut [u8], bytes: &[u8], answer: &mut [u8], request: &mut [u8]) -> Outcome
    ensures { Called memory bytes.now answer request result }
{
    if memory.len() < memory::SIZE {
        return Outcome::Refused(Refusal::ShortBuffer);
    }
    take_call(&mut memory[..memory::SIZE], bytes, answer, request)
}

pub fn on_reply(memory: &mut [u8], bytes: &[u8], answer: &mut [u8], request: &mut [u8]) -> Outcome
    ensures { Replied memory bytes.now answer request result }
{
    if memory.len() < memory::SIZE {
        return Outcome::Refused(Refusal::ShortBuffer);
    }
    take_reply(&mut memory[..memory::SIZE], bytes, answer, request)
}

// A part of its own, over a slice: of a reference to an array a proof learns the length where it is lent as one.
fn save_into(memory: &mut [u8], image: &mut [u8], digest: &mut [u8]) -> Outcome
    requires { length digest.old ≡ DIGEST_BYTES }
    ensures { Saved memory image digest result }
{
    if memory.len() < memory::SIZE {
        return Outcome::Refused(Refusal::ShortBuffer);
    }
    take_save(&mut memory[..memory::SIZE], image, digest)
}

pub fn on_save(
    memory: &mut [u8],
    image: &mut [u8],
    digest: &mut [u8; Guard::DIGEST_BYTES],
) -> Outcome
    ensures { Saved memory image digest result }
{
    save_into(memory, image, digest)
}

pub fn on_load(memory: &mut [u8], image: &[u8], digest: &[u8]) -> Outcome
    ensures { Loaded memory image.now digest.now result }
{
    if memory.len() < memory::SIZE {
        return Outcome::Refused(Refusal::ShortBuffer);
    }
    take_load(&mut memory[..memory::SIZE], image, digest)
}

// A fresh guard: the root alone, idle.
fn make_fresh(m: &mut [u8])
    requires { IsMemory m.old }
    ensures m_after { held m.new ≡ fresh delivered (digest_store delivered) }
    ensures keeps_length { KeepsLength m }
{
    let g = Guard::fresh(m);
}

pub fn on_fresh(memory: &mut [u8]) -> Outcome
    ensures { MadeFresh memory result }
{
    if memory.len() < memory::SIZE {
        return Outcome::Refused(Refusal::ShortBuffer);
    }
    make_fresh(&mut memory[..memory::SIZE]);
    Outcome::Done {
        number: 0,
        length: 0,
    }
}

// ---- as C sees them; guard_c exports these

fn shown(o: Outcome) -> GuardOutcome
    ensures { result ≡ shown_as o }
{
    match o {
        Outcome::Done { number, length } => GuardOutcome {
            kind: 0,
            number,
            length,
        },
        Outcome::Ask(length) => GuardOutcome {
            kind: 1,
            number: 0,
            length,
        },
        Outcome::Refused(refusal) => GuardOutcome {
            kind: 2,
            number: refusal.number() as u64,
            length: 0,
        },
        Outcome::Stopped(reason) => GuardOutcome {
            kind: 3,
            number: reason.number() as u64,
            length: 0,
        },
    }
}

pub fn guard_entry_fresh(memory: &mut [u8]) -> GuardOutcome
    ensures { Shown (MadeFresh memory) result }
{
    let o = on_fresh(memory);
    shown(o)
}

pub fn guard_entry_call(
    memory: &mut [u8],
    bytes: &[u8],
    answer: &mut [u8],
    request: &mut [u8],
) -> GuardOutcome
    ensures { Shown (Called memory bytes.now answer request) result }
{
    let o = on_call(memory, bytes, answer, request);
    shown(o)
}

pub fn guard_entry_reply(
    memory: &mut [u8],
    bytes: &[u8],
    answer: &mut [u8],
    request: &mut [u8],
) -> GuardOutcome
    ensures { Shown (Replied memory bytes.now answer request) result }
{
    let o = on_reply(memory, bytes, answer, request);
    shown(o)
}

pub fn guard_entry_save(
    memory: &mut [u8],
    image: &mut [u8],
    digest: &mut [u8; Guard::DIGEST_BYTES],
) -> GuardOutcome
    ensures { Shown (Saved memory image digest) result }
{
    let o = on_save(memory, image, digest);
    shown(o)
}

pub fn guard_entry_load(memory: &mut [u8], image: &[u8], digest: &[u8]) -> GuardOutcome
    ensures { Shown (Loaded memory image.now digest.now) result }
{
    let o = on_load(memory, image, digest);
    shown(o)
}
