// The calls that a read-only guard takes, and why it refuses the others. No table is read here.
#![tactic(auto)]

ghost use Rattle.std.specs.Prelude.{true, false, ◌≡◌, ◌<◌, ◌≤◌, length, get_or};
ghost use Rattle.call_reader.specs.Meaning.{meant, NumberFits, Ranges};
ghost use Rattle.refusals.specs.Numbers.{number_of, number_or_0};
ghost use Rattle.read_only_calls.specs.Refusals.{takes_by_path, takes_parsed, number_of_form};
ghost use Rattle.read_only_calls.specs.Refusals.{form_number, Taken, Refuses};

use call_reader::ParsedCall;
use limits::kinds;
use paths::PathFault;
use refusals::Refusal;

// Rights to read, and no more.
const RIGHTS_TO_READ: u8 = 1;

// open with rights 1, readdir, stat.
fn takes_by_path(kind: u8, number: u8) -> bool
    requires { NumberFits kind number }
    ensures { result ≡ takes_by_path kind number }
{
    match kind {
        kinds::OPEN => number == RIGHTS_TO_READ,
        kinds::READDIR => true,
        kinds::STAT => true,
        _ => false,
    }
}

// Whether a call that was read goes the guard's way.
fn takes(p: ParsedCall, size: usize) -> bool
    requires { Ranges p size }
    ensures { result ≡ takes_parsed p }
{
    match p {
        ParsedCall::ByPath {
            kind,
            number,
            start,
        } => takes_by_path(kind, number),
        ParsedCall::Close { .. } | ParsedCall::Seek { .. } | ParsedCall::Read { .. } => true,
        _ => false,
    }
}

// 22, 36, else 30.
fn refusal_of(form: Result<(), PathFault>) -> Refusal
    ensures { number_of result ≡ number_of_form form }
{
    match form {
        Ok(()) => Refusal::ReadOnly,
        Err(fault) => Refusal::from(fault),
    }
}

// Of a call that is not taken.
fn form_refusal(p: ParsedCall, call: &[u8]) -> Refusal
    requires { (takes_parsed p ≡ false) × Ranges p (length call.now) }
    ensures { number_of result ≡ form_number (meant p call.now) }
{
    match p {
        ParsedCall::ByPath {
            kind,
            number,
            start,
        } => refusal_of(paths::form(&call[start..])),
        ParsedCall::Rename { second } => refusal_of(paths::forms(
            &call[2..second],
            &call[second..],
        )),
        _ => Refusal::ReadOnly,
    }
}

// An open that asks for rights 1.
fn opens_to_read(call: &[u8]) -> bool
    ensures { result ≡ true → get_or call.now 1 0 ≡ 1 }
{
    if call.len() < 2 {
        return false;
    }
    call[1] == RIGHTS_TO_READ
}

// By the first bytes alone: a call of a kind that is taken is not read here.
fn is_taken(call: &[u8]) -> bool
    ensures { Taken result call.now }
{
    if call.len() == 0 {
        return false;
    }
    let kind = call[0];
    match kind {
        kinds::OPEN => opens_to_read(call),
        kinds::CLOSE..=kinds::READ => true,
        kinds::READDIR..=kinds::STAT => true,
        _ => false,
    }
}

// What is malformed goes the guard's way, which refuses it.
fn refusal_of_other(call: &[u8]) -> Option<Refusal>
    requires { 4 ≤ get_or call.now 0 0 → 6 < get_or call.now 0 0 }
    ensures { Refuses (number_or_0 result) call.now }
{
    let parsed = call_reader::read_other(call)?;
    if takes(parsed, call.len()) {
        return None;
    }
    Some(form_refusal(parsed, call))
}

// Why a call is refused, where 5, 114 and 34 do not apply; none for one that goes the guard's way.
pub fn refusal(call: &[u8]) -> Option<Refusal>
    ensures { Refuses (number_or_0 result) call.now }
{
    if is_taken(call) {
        return None;
    }
    refusal_of_other(call)
}
