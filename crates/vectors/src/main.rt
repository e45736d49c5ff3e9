// Runs NIST's response files for SHA-256 and counts the cases whose digest is the published one. Any other digest is
// printed; whatever
// else is damaged changes the digest, or the count. A file of damaged cases comes first.
#![tactic(auto)]

use std::fs::File;
use std::os::unix::fs::FileExt;
use std::rt::Files;

mod monte;

// Where the next line starts, the length of the next message, the digest computed last, and how many were right.
#[derive(Clone, Copy, Debug, PartialEq, Eq)]
struct Progress {
    at: usize,
    bytes: usize,
    digest: [u8; 32],
    right: usize,
}

fn say(rt: &impl Print, text: &[u8]) {
    let _ = rt.write_all(text);
}

// What stands in a line after a word that it begins with, where something does.
fn value<'a>(line: &'a [u8], word: &[u8]) -> Option<&'a [u8]> {
    line.strip_prefix(word).filter(|text| !text.is_empty())
}

// The length in bytes that a line states, or the one before. A bad one is more than is read.
fn stated(line: &[u8], before: usize) -> usize {
    match value(line, b"Len = ") {
        Some(bits) => text::decimal::read(bits).map_or(8193, |n| n / 8),
        None => before,
    }
}

// The digest of the first n bytes that the digits write: a message of no bytes is written as one.
fn message_digest(digits: &[u8], n: usize) -> [u8; 32] {
    let mut message = [0u8; 8192];
    let _ = text::hex::decode(digits, &mut message);
    digest::sha256(&message[..n.min(8192)])
}

// The digest after a line, which may be a message, a round of the Monte Carlo test, or its seed.
fn computed(line: &[u8], bytes: usize, before: [u8; 32]) -> [u8; 32] {
    if let Some(message) = value(line, b"Msg = ") {
        return message_digest(message, bytes);
    }
    if line.starts_with(b"COUNT = ") {
        return monte::thousand(before);
    }
    let mut d = before;
    if let Some(seed) = value(line, b"Seed = ") {
        let _ = text::hex::decode(seed, &mut d);
    }
    d
}

// Whether a line publishes the digest d. Another that is published is printed.
fn judged(rt: &impl Print, line: &[u8], d: [u8; 32]) -> bool {
    let Some(published) = value(line, b"MD = ") else {
        return false;
    };
    let mut digits = [0u8; 64];
    text::hex::encode(&d, &mut digits);
    let is_right = published == digits.as_slice();
    if !is_right {
        say(rt, b"wrong: ");
        say(rt, line);
        say(rt, b"\n");
    }
    is_right
}

// One line, which is read from where it starts: the longest of NIST's has 12,806 bytes.
fn turn(rt: &impl Print, file: &File, p: Progress) -> Progress {
    let mut buffer = [0u8; 16384];
    let n = file
        .read_at(&mut buffer, (p.at % 1048576) as u64)
        .unwrap_or(0);
    let text = &buffer[..n];
    let end = text::line::end(text, 0);
    let whole = &text[..end];
    let line = whole.strip_suffix(b"\r").unwrap_or(whole);
    let bytes = stated(line, p.bytes);
    let digest = computed(line, bytes, p.digest);
    Progress {
        at: p.at.wrapping_add(end).wrapping_add(1),
        bytes,
        digest,
        right: p.right.wrapping_add(usize::from(judged(rt, line, digest))),
    }
}

// How many cases are right in the first thousand lines of a file; one that cannot be read has none.
fn right_in(rt: &(impl Files<File = File> + Print), path: &str) -> usize {
    let Ok(file) = File::open(rt, path) else {
        return 0;
    };
    let mut p = Progress {
        at: 0,
        bytes: 0,
        digest: [0; 32],
        right: 0,
    };
    for _ in 0..1000 {
        p = turn(rt, &file, p);
    }
    p.right
}

fn run(rt: &(impl Files<File = File> + Print), path: &str) {
    let right = right_in(rt, path);
    let _ = println!(rt; "{right} right in {path}");
}

fn main(rt: HostRuntime) {
    run(&rt, "damaged.rsp");
    run(&rt, "SHA256ShortMsg.rsp");
    run(&rt, "SHA256LongMsg.rsp");
    run(&rt, "SHA256Monte.rsp");
}
