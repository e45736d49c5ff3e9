// Lower-case hexadecimal digits, two to a byte.
ghost use Rattle.std.specs.Prelude.{◌≡◌, ◌*◌, ◌/◌, ◌≤◌, ◌<◌, length};
ghost use Rattle.std.specs.List.{position};
ghost use Rattle.lists.specs.Parts.{overwrite};
ghost use Rattle.text.specs.Hex.{digit_of, value_of, hex_of, pair_of, bytes_of, is_bad, decode_of, decoded_in};

use std::error::Error;
use std::fmt;

// Why digits are not read.
#[derive(Clone, Copy, Debug, PartialEq, Eq)]
pub enum DecodeError {
    // at this index
    BadDigit(usize),
    Odd,
    TooLong,
}

impl fmt::Display for DecodeError {
    fn fmt<W: fmt::Write>(&self, f: &mut fmt::Formatter<W>) -> fmt::Result {
        match self {
            DecodeError::BadDigit(at) => write!(f, "byte {at} is no hexadecimal digit"),
            DecodeError::Odd => write!(f, "an odd number of digits"),
            DecodeError::TooLong => write!(f, "more bytes than there is room for"),
        }
    }
}

impl Error for DecodeError {}

// The number of a digit.
pub fn value(c: u8) -> Option<u8>
    ensures { result ≡ value_of c }
{
    match c {
        b'0'..=b'9' => Some(c - b'0'),
        b'a'..=b'f' => Some(c - b'a' + 10),
        _ => None,
    }
}

// The digit of a number below 16.
pub fn digit(n: u8) -> u8
    requires { n < 16 }
    ensures { result ≡ digit_of n }
{
    if n < 10 { b'0' + n } else { b'a' + (n - 10) }
}

// The byte of two digits.
fn pair(high: u8, low: u8) -> u8
    ensures { result ≡ pair_of high low }
{
    value(high).unwrap_or(0) * 16 + value(low).unwrap_or(0)
}

// Writes the digits of `bytes` to the front of `out`.
pub fn encode(bytes: &[u8], out: &mut [u8])
    requires { 2 * length bytes.now ≤ length out.old }
    ensures { out.new ≡ overwrite out.old 0 (hex_of bytes.now) }
{
    for (i, byte) in bytes.iter().enumerate() {
        out[2 * i] = digit(byte / 16);
        out[2 * i + 1] = digit(byte % 16);
    }
}

// The index of the first byte that is no digit.
fn first_bad(text: &[u8]) -> Option<usize>
    ensures { result ≡ position is_bad text.now }
{
    text.iter().position(|c| value(*c).is_none())
}

// Writes the bytes of `text`'s digits to the front of `out`.
fn fill(text: &[u8], out: &mut [u8])
    requires { length text.now / 2 ≤ length out.old }
    ensures { out.new ≡ overwrite out.old 0 (bytes_of text.now) }
{
    for i in 0..text.len() / 2 {
        out[i] = pair(text[2 * i], text[2 * i + 1]);
    }
}

// Reads digits into the front of `out`, and answers how many bytes; where they are refused `out` keeps what it held.
pub fn decode(text: &[u8], out: &mut [u8]) -> Result<usize, DecodeError>
    ensures answer { result ≡ decode_of text.now (length out.old) }
    ensures left { out.new ≡ decoded_in result text.now out.old }
{
    if let Some(at) = first_bad(text) {
        return Err(DecodeError::BadDigit(at));
    }
    if text.len() % 2 == 1 {
        return Err(DecodeError::Odd);
    }
    let n = text.len() / 2;
    if out.len() < n {
        return Err(DecodeError::TooLong);
    }
    fill(text, out);
    Ok(n)
}
