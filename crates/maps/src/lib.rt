// Calls on maps: the host hands out zeroed memory and the guard judges the address. A reply is judged where it lies;
// only address and size are kept.
#![tactic(auto)]

ghost use Rattle.std.specs.Prelude.{true, ◌&&◌, ◌≡◌, ◌+◌, ◌<◌, ◌≤◌, eqb, ltb, length, take, drop, IfSome, OnOk};
ghost use Rattle.lists.specs.Search.{any, every};
ghost use Rattle.filesystem.specs.MemoryMaps.{MAPS, MAP_BYTES, map_at};
ghost use Rattle.rules.specs.MapRules.{is_map_size, find_map, overlaps};
ghost use Rattle.rules.specs.Calls.{map_memory, unmap};
ghost use Rattle.memory.specs.Memories.{IsMemory, was};
ghost use Rattle.refusals.specs.Numbers.{reason_or_0};
ghost use Rattle.tables.specs.Found.{found};
ghost use Rattle.guard_state.specs.Calls.{MAPPING, UNMAPPING};
ghost use Rattle.guard_state.specs.State.{numbers_in};
ghost use Rattle.requests.specs.Room.{HoldsRequest};
ghost use Rattle.outcomes.specs.Clauses.{BeginsMap, Accepts};
ghost use Rattle.maps.specs.Judged.{new_map, is_misplaced, map_reason};

use guard_state::Guard;
use outcomes::Outcome;
use refusals::{Refusal, StopReason};

// ---- the table

// Whether x lies before the end of `size` bytes at `address`: that end may be 2^64, which no number here holds.
fn is_before_end(x: u64, address: u64, size: u32) -> bool
    ensures { result ≡ ltb x (address + size) }
{
    if x < address {
        return true;
    }
    x - address < size as u64
}

// Whether map i has a byte of these.
fn overlaps(m: &[u8], i: usize, address: u64, size: u32) -> bool
    requires { (i < MAPS) × IsMemory m.now }
    ensures { result ≡ overlaps (new_map address size) (map_at (was m.now).maps i) }
{
    let first = memory::map_address(m, i);
    if is_before_end(address, first, memory::map_size(m, i)) {
        return is_before_end(first, address, size);
    }
    false
}

// Whether one of the first n maps has.
fn any_overlaps(m: &[u8], n: usize, address: u64, size: u32) -> bool
    requires { (n ≤ MAPS) × IsMemory m.now }
    ensures { result ≡ any (overlaps (new_map address size)) (take n (was m.now).maps) }
{
    // none before i has
    for i in 0..n {
        if overlaps(m, i, address, size) {
            return true;
        }
    }
    false
}

// The place of the map that begins at this address, among the first n.
fn find(m: &[u8], n: usize, address: u64) -> Option<usize>
    requires { (n ≤ MAPS) × IsMemory m.now }
    ensures place { result ≡ found n (find_map (take n (was m.now).maps) address) }
    ensures within { IfSome result (λ k. k < n) }
{
    // none before i does
    for i in 0..n {
        if memory::map_address(m, i) == address {
            return Some(i);
        }
    }
    None
}

// ---- a reply

// Whether the bytes from a place on are zero.
fn is_zero_from(x: &[u8], from: usize) -> bool
    requires { from ≤ length x.now }
    ensures { result ≡ every (eqb 0) (drop from x.now) }
{
    x[from..].iter().all(|b| *b == 0)
}

// Whether the 32 bytes from a place on are zero.
fn is_zero_block(x: &[u8], i: usize) -> bool
    requires { i + 32 ≤ length x.now }
    ensures { every (eqb 0) (drop i x.now) ≡ (result && every (eqb 0) (drop (i + 32) x.now)) }
{
    if numbers::u64_at(x, i) != 0 {
        return false;
    }
    if numbers::u64_at(x, i + 8) != 0 {
        return false;
    }
    if numbers::u64_at(x, i + 16) != 0 {
        return false;
    }
    numbers::u64_at(x, i + 24) == 0
}

// Whether all bytes are zero, a block of 32 at a time.
fn is_zero(x: &[u8]) -> bool
    ensures { result ≡ every (eqb 0) x.now }
{
    let blocks = x.len() / 32;
    // the blocks before k are
    for k in 0..blocks {
        if !is_zero_block(x, 32 * k) {
            return false;
        }
    }
    is_zero_from(x, 32 * blocks)
}

// Whether no map of this size may begin at an address: it is 0, at no unit, or a byte lies beyond 2^64 - 1.
fn is_misplaced(address: u64, size: usize) -> bool
    requires { size ≤ MAP_BYTES }
    ensures { result ≡ is_misplaced address size }
{
    if address == 0 {
        return true;
    }
    if address % Guard::MAP_UNIT as u64 != 0 {
        return true;
    }
    u64::MAX - (size as u64) < address - 1
}

// A map's reply: 1 of another length, 8 where the address or a byte is wrong.
fn judge_map(m: &[u8], n: usize, size: usize, reply: &[u8]) -> Result<(), StopReason>
    requires { (n ≤ MAPS) × (size ≤ MAP_BYTES) × IsMemory m.now }
    ensures value { reason_or_0 result ≡ map_reason (take n (was m.now).maps) size reply.now }
    ensures reply_len { OnOk result (length reply.now ≡ 8 + size) }
{
    if reply.len() != 8 + size {
        return Err(StopReason::Length);
    }
    let address = numbers::u64_at(reply, 0);
    if is_misplaced(address, size) {
        return Err(StopReason::Map);
    }
    if any_overlaps(m, n, address, size as u32) {
        return Err(StopReason::Map);
    }
    if is_zero(&reply[8..]) {
        return Ok(());
    }
    Err(StopReason::Map)
}

// ---- map

pub fn begin_map(m: &mut [u8], size: u32, request: &mut [u8]) -> Outcome
    requires { (is_map_size size ≡ true) × IsMemory m.old × HoldsRequest request.old }
    ensures { BeginsMap m request (map_memory size) result }
{
    if Guard::MAPS <= guard_state::map_count(m) {
        return Outcome::Refused(Refusal::TooManyMaps);
    }
    guard_state::wait_map(m, size as usize);
    Outcome::Ask(requests::write_map(request, size))
}

// The map joins the table; done with its address. No consistent state lacks room for it.
pub fn accept_map(m: &mut [u8], reply: &[u8]) -> Outcome
    requires { ((numbers_in m.old).call ≡ MAPPING) × IsMemory m.old }
    ensures { Accepts m reply.now result }
{
    let g = Guard::load(m);
    let n = guard_state::map_count(m);
    if let Err(reason) = judge_map(m, n, g.size, reply) {
        return Outcome::Stopped(reason);
    }
    if Guard::MAPS <= n {
        return Outcome::Stopped(StopReason::Map);
    }
    let number = numbers::u64_at(reply, 0);
    memory::put_map(m, n, number, g.size as u32);
    guard_state::rest_maps(m, n + 1);
    Outcome::Done { number, length: 0 }
}

// ---- unmap

pub fn begin_unmap(m: &mut [u8], address: u64, request: &mut [u8]) -> Outcome
    requires { IsMemory m.old × HoldsRequest request.old }
    ensures { BeginsMap m request (unmap address) result }
{
    let n = guard_state::map_count(m);
    if find(m, n, address).is_none() {
        return Outcome::Refused(Refusal::Invalid);
    }
    guard_state::wait_unmap(m, address);
    Outcome::Ask(requests::write_unmap(request, address))
}

// The map is taken out; those behind it move up. No consistent state lacks it.
pub fn accept_unmap(m: &mut [u8], reply: &[u8]) -> Outcome
    requires { ((numbers_in m.old).call ≡ UNMAPPING) × IsMemory m.old }
    ensures { Accepts m reply.now result }
{
    if let Err(reason) = replies::judge_status(reply, 0) {
        return Outcome::Stopped(reason);
    }
    let g = Guard::load(m);
    let n = guard_state::map_count(m);
    let Some(k) = find(m, n, g.parent) else {
        return Outcome::Stopped(StopReason::Status);
    };
    memory::move_maps(m, k + 1, k, n - (k + 1));
    guard_state::rest_maps(m, n - 1);
    Outcome::Done {
        number: 0,
        length: 0,
    }
}
