// Lines of an input of any length, read through one buffer: what is not yet a whole line stands at its front.
#![tactic(auto)]

ghost use Rattle.std.specs.Prelude.{◌≡◌, ◌≤◌, ◌+◌, ◌-◌, min, length, take};
ghost use Rattle.lists.specs.Parts.{part, overwrite};

use std::io::Read;

// One read into the buffer from `at` on: how many bytes came, whatever they are; 0 at the end of the input, and where
// the read failed.
// What stands before `at` is kept.
pub fn read_on<R: Read>(input: &mut R, buffer: &mut [u8], at: usize) -> usize
    requires { at ≤ length buffer.old }
    ensures { (at + result ≤ length buffer.new)
        × (length buffer.new ≡ length buffer.old)
        × (take at buffer.new ≡ take at buffer.old) }
{
    input.read(&mut buffer[at..]).unwrap_or(0)
}

// The bytes from `from` to `end`, a line that has not ended, moved to the front: how many are kept, at most `most`.
pub fn keep(buffer: &mut [u8], from: usize, end: usize, most: usize) -> usize
    requires { (from ≤ end) × (end ≤ length buffer.old) }
    ensures buffer_after { buffer.new ≡ overwrite buffer.old 0
        (part from (end - from) buffer.old) }
    ensures value { (result ≡ min (end - from) most) × (result ≤ most)
        × (length buffer.new ≡ length buffer.old) }
{
    let left = end - from;
    buffers::shift(buffer, from, 0, left);
    left.min(most)
}
