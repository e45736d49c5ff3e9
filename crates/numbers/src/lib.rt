// Numbers from bytes and into bytes, the least significant byte first.
#![tactic(auto)]

ghost use Rattle.std.specs.Prelude.{◌≡◌, ◌+◌, ◌<◌, ◌≤◌, length};
ghost use Rattle.lists.specs.LittleEndian.{encode, decode};
ghost use Rattle.lists.specs.Parts.{part};
ghost use Rattle.lists.specs.Signed.{signed};
ghost use Rattle.numbers.specs.Slices.{Overwritten};

// The number in four bytes.
pub fn u32_at(b: &[u8], at: usize) -> u32
    requires { at + 4 ≤ length b.now }
    ensures { result ≡ decode (part at 4 b.now) }
{
    u32::from_le_bytes([b[at], b[at + 1], b[at + 2], b[at + 3]])
}

// The number in eight bytes.
pub fn u64_at(b: &[u8], at: usize) -> u64
    requires { at + 8 ≤ length b.now }
    ensures { result ≡ decode (part at 8 b.now) }
{
    u64::from_le_bytes(b[at..at + 8].try_into().unwrap())
}

// A number of 32 bits in two's complement.
pub fn signed_of(x: u32) -> i32
    ensures { result ≡ signed 4 x }
{
    x.cast_signed()
}

// The signed number in four bytes.
pub fn i32_at(b: &[u8], at: usize) -> i32
    requires { at + 4 ≤ length b.now }
    ensures { result ≡ signed 4 (decode (part at 4 b.now)) }
{
    signed_of(u32_at(b, at))
}

// A number as four bytes.
pub fn bytes4(x: u32) -> [u8; 4]
    ensures { result ≡ encode 4 x }
{
    x.to_le_bytes()
}

// A number as eight bytes.
pub fn bytes8(x: u64) -> [u8; 8]
    ensures { result ≡ encode 8 x }
{
    x.to_le_bytes()
}

// The number in w bytes.
pub fn number_at(b: &[u8], at: usize, w: usize) -> u64
    requires { (w ≤ 8) × (at + w ≤ length b.now) }
    ensures { result ≡ decode (part at w b.now) }
{
    let mut x = 0;
    // x is the number in the bytes from i on
    for i in (0..w).rev() {
        x = x * 256 + u64::from(b[at + i]);
    }
    x
}

// The w low bytes of a number, written over a part of m.
pub fn put_number(m: &mut [u8], at: usize, w: usize, x: u64)
    requires { at + w ≤ length m.old }
    ensures { Overwritten m at (encode w x) }
{
    let mut y = x;
    // i bytes are written, y is what is left of x
    for i in 0..w {
        m[at + i] = (y % 256) as u8;
        y /= 256;
    }
}
