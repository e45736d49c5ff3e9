// The lines of a list of events: a letter, a blank and fields with a blank between them.
#![tactic(auto)]

ghost use Rattle.std.specs.Prelude.{◌≡◌, ◌≢◌, ◌∷◌, ◌+◌, ◌≤◌, length, min, take, slice_index, unwrap_or, MatchOption};
ghost use Rattle.std.specs.List.{position};
ghost use Rattle.text.specs.Decimal.{read_decimal};
ghost use Rattle.transcript_lines.specs.Fields.{is_blank, first_field, behind_field, two_fields_length, ReadsLoad};

use text::hex::DecodeError;

pub mod answers;
pub mod counts;
pub mod input;
pub mod said;

// A line's letter, and what stands behind its blank.
pub fn parted(line: &[u8]) -> Option<(u8, &[u8])>
    ensures { MatchOption result (slice_index line.now 1 ≢ 32) (λ p. line.now ≡ p.0 ∷ (32 ∷ p.1.now)) }
{
    match line {
        [letter, b' ', text @ ..] => Some((*letter, text)),
        _ => None,
    }
}

fn blank_in(text: &[u8]) -> Option<usize>
    ensures { result ≡ position is_blank text.now }
{
    text.iter().position(|c| *c == b' ')
}

// The first field, and what stands behind its blank.
pub fn fields(text: &[u8]) -> (&[u8], &[u8])
    ensures fits { length result.0.now + length result.1.now ≤ length text.now }
    ensures value { (result.0.now ≡ first_field text.now) × (result.1.now ≡ behind_field text.now) }
{
    match blank_in(text) {
        Some(at) => (&text[..at], &text[at + 1..]),
        None => (text, &text[text.len()..]),
    }
}

// The first two fields, and the blank between them.
pub fn first_two(text: &[u8]) -> &[u8]
    ensures { result.now ≡ take (two_fields_length text.now) text.now }
{
    let (first, rest) = fields(text);
    let (second, _) = fields(rest);
    desk_lines::first(text, first.len() + 1 + second.len())
}

// A number, at most `most`; 0 where there is none.
pub fn number(text: &[u8], most: usize) -> usize
    ensures { (result ≤ most) × (result ≡ min (unwrap_or (read_decimal text.now) 0) most) }
{
    text::decimal::read(text).unwrap_or(0).min(most)
}

// How many bytes of an image and of its digest were read.
#[derive(Clone, Copy, Debug, PartialEq, Eq)]
pub struct Load {
    pub image: usize,
    pub digest: usize,
}

// The digits of an image and those of its digest.
pub fn read_load(text: &[u8], image: &mut [u8], digest: &mut [u8]) -> Result<Load, DecodeError>
    ensures { ReadsLoad text.now result image.old image.new digest.old digest.new }
{
    let (first, second) = fields(text);
    Ok(Load {
        image: text::hex::decode(first, image)?,
        digest: text::hex::decode(second, digest)?,
    })
}
