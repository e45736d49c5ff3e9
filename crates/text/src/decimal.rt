// Decimal numbers.
ghost use Rattle.std.specs.Prelude.{◌++◌, ◌≡◌, ◌+◌, ◌≤◌, length, take};
ghost use Rattle.text.specs.Decimal.{read_decimal};
ghost use Rattle.text.specs.Digits.{decimal_of};

// The number, where the text is one below a thousand millions.
pub fn read(text: &[u8]) -> Option<usize>
    ensures { result ≡ read_decimal text.now }
{
    if text.is_empty() {
        return None;
    }
    let mut n = 0;
    // n is the number of the digits so far
    for c in text {
        if !c.is_ascii_digit() || 99999999 < n {
            return None;
        }
        n = 10 * n + (*c - b'0') as usize;
    }
    Some(n)
}

// Writes the digits of n to the end of `out`, and answers where they begin; what stands before them is kept.
#[tactic(auto, using(crate::proofs::Written::written))]
pub fn write(n: u64, out: &mut [u8]) -> usize
    requires { 20 ≤ length out.old }
    ensures { (result + length (decimal_of n) ≡ length out.old)
        × (out.new ≡ take result out.old ++ decimal_of n) }
{
    let mut buffer = itoa::Buffer::new();
    let digits = buffer.format(n).as_bytes();
    let from = out.len() - digits.len();
    out[from..].copy_from_slice(digits);
    from
}
