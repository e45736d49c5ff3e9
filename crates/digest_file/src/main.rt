// Prints the SHA-256 digest, in lower-case hexadecimal digits, of the file that its argument names, or of standard
// input.
#![tactic(auto)]

ghost use Rattle.std.specs.Prelude.{◌≡◌, ◌+◌, ◌≤◌, length, IfOk};

use std::env::FillError;
use std::fs::File;
use std::io;
use std::io::{Read, Write};
use std::rt::{Env, Files};

// The system's number of a name that is too long.
const ENAMETOOLONG: i32 = 36;

// One read into the buffer from `at` on: how many bytes, 0 at the end.
fn read_at<R: Read>(input: &mut R, buffer: &mut [u8], at: usize) -> io::Result<usize>
    requires { at ≤ length buffer.old }
    ensures length { length buffer.new ≡ length buffer.old }
    ensures bound { IfOk result (λ n. at + n ≤ length buffer.new) }
{
    input.read(&mut buffer[at..])
}

// Fills the buffer: how many bytes, fewer than it has room for at the end of the input alone.
fn fill<R: Read>(input: &mut R, buffer: &mut [u8]) -> io::Result<usize>
    ensures length { length buffer.new ≡ length buffer.old }
    ensures bound { IfOk result (λ n. n ≤ length buffer.new) }
{
    // a read brings any number of bytes, so n does not count
    let mut n = 0;
    while n < buffer.len() {
        let more = read_at(input, buffer, n)?;
        if more == 0 {
            break;
        }
        n += more;
    }
    Ok(n)
}

fn say(rt: &impl Print, text: &[u8]) {
    let _ = rt.write_all(text);
}

fn print(rt: &impl Print, d: [u8; 32]) {
    let mut digits = [0u8; 64];
    text::hex::encode(&d, &mut digits);
    say(rt, &digits);
    say(rt, b"\n");
}

// Where an error's words end: its number stands behind them, or nothing.
fn words_end(text: &[u8]) -> usize
    ensures { result ≤ length text.now }
{
    for i in 0..text.len() {
        if text[i] == 0 || text[i..].starts_with(b" (os error ") {
            return i;
        }
    }
    text.len()
}

// Writes a line to standard error: what failed, a colon and the error's words.
fn fail(errors: &impl Print, what: &[u8], error: io::Error) {
    let mut text = [0u8; 256];
    let mut rest: &mut [u8] = &mut text;
    let _ = write!(rest, "{error}");
    say(errors, what);
    say(errors, b": ");
    say(errors, &text[..words_end(&text)]);
    say(errors, b"\n");
}

fn run<R: Read>(rt: &impl Print, errors: &impl Print, input: &mut R, name: &[u8]) {
    let mut buffer = [0u8; 65536];
    let mut state = digest::initial();
    let mut total: usize = 0;
    // nothing says that the input ends, so the turns are counted, up to a number that no input comes to
    for _ in 0..u64::MAX {
        let n = match fill(input, &mut buffer) {
            Ok(n) => n,
            Err(error) => return fail(errors, name, error),
        };
        total = total.wrapping_add(n);
        if n < buffer.len() {
            return print(rt, digest::finish(state, &buffer[..n], total));
        }
        state = digest::absorb(state, &buffer);
    }
}

// A file, whose name is text.
fn run_file(rt: &(impl Files + Print), errors: &impl Print, name: &[u8]) {
    let Ok(path) = std::str::from_utf8(name) else {
        fail(
            errors,
            name,
            io::Error::from(io::ErrorKind::InvalidFilename),
        );
        return;
    };
    match File::open(rt, path) {
        Ok(mut file) => run(rt, errors, &mut file, name),
        Err(error) => fail(errors, name, error),
    }
}

fn main(rt: HostRuntime) {
    let errors = rt.stderr();
    let mut path = [0u8; 4096];
    match rt.arg(1, &mut path) {
        Ok(n) => run_file(&rt, &errors, &path[..n]),
        Err(FillError::TooLong) => fail(
            &errors,
            b"argument",
            io::Error::from_raw_os_error(ENAMETOOLONG),
        ),
        Err(FillError::NotPresent) => run(&rt, &errors, &mut rt.stdin(), b"standard input"),
    }
}
