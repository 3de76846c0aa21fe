// The product of a row.
ghost use Rattle.std.specs.Prelude.{◌≡◌, ◌-◌, ◌^◌, ◌<◌, ◌≤◌, length, slice_index};
ghost use Rattle.reader.specs.Rows.{form_bits, driven_bit, form_words, driven_word, as_long, product_of};

use crate::state::{Heading, ReadRefusal};
use cube::Cube;

// An input by its character: whether it may be 0, and whether it may be 1.
fn form(b: u8) -> Option<(u32, u32)>
    ensures { result ≡ form_bits b }
{
    match b as char {
        '0' => Some((1, 0)),
        '1' => Some((0, 1)),
        '-' => Some((1, 1)),
        _ => None,
    }
}

// The input at place i of a row.
fn form_at(part: &[u8], i: usize) -> Option<(u32, u32)>
    requires { i < length part.now }
    ensures { result ≡ form_bits (slice_index part.now i) }
{
    form(part[i])
}

// An output by its character: whether it is driven. The characters of a row are told apart by cases, as in `form`.
fn driven(b: u8) -> Option<u32>
    ensures { result ≡ driven_bit b }
{
    match b as char {
        '0' => Some(0),
        '1' => Some(1),
        _ => None,
    }
}

// The word of n set bits.
fn low_bits(n: usize) -> u32
    requires { n ≤ 32 }
    ensures { result ≡ 2 ^ n - 1 }
{
    ((1u64 << n) - 1) as u32
}

// The words of the inputs. They are read from the last to the first, so that each is the lowest bit when it comes; the
// inputs past the last are absent.
fn forms(part: &[u8]) -> Option<(u32, u32)>
    requires { length part.now ≤ 32 }
    ensures { result ≡ form_words part.now }
{
    let absent = low_bits(32 - part.len());
    let (mut zeros, mut ones) = (absent, absent);
    // By index: through `iter().rev()` a row that is read the wrong way round would be refused for its sums, and not
    // for its words.
    for i in (0..part.len()).rev() {
        let (zero, one) = form_at(part, i)?;
        zeros = zeros * 2 + zero;
        ones = ones * 2 + one;
    }
    Some((zeros, ones))
}

// The word of the outputs, read from the last to the first. It is a loop of its own beside `forms`: an input has two
// bits, and an output one.
#[tactic(auto, using(crate::proofs::WordLaws::driven_bad_turn))]
fn outputs(part: &[u8]) -> Option<u32>
    requires { length part.now ≤ 32 }
    ensures { result ≡ driven_word part.now }
{
    let mut word = 0;
    for output in part.iter().rev() {
        word = word * 2 + driven(*output)?;
    }
    Some(word)
}

// Whether the parts of a row are as long as the heading says.
fn as_long(first: &[u8], second: &[u8], heading: Heading) -> bool
    ensures { result ≡ as_long heading.inputs heading.outputs first.now second.now }
{
    first.len() == heading.inputs as usize
        && second.len() == heading.outputs as usize
        && heading.inputs <= 32
        && heading.outputs <= 32
}

// The product of a row, by what stands before its space and after it.
#[tactic(auto, unfolding(crate::specs::Rows::product_of))]
pub(crate) fn product(first: &[u8], second: &[u8], heading: Heading) -> Result<Cube, ReadRefusal>
    ensures { result ≡ product_of heading.inputs heading.outputs first.now second.now }
{
    if !as_long(first, second, heading) {
        return Err(ReadRefusal::Malformed);
    }
    let (zeros, ones) = forms(first).ok_or(ReadRefusal::Malformed)?;
    let word = outputs(second).ok_or(ReadRefusal::Malformed)?;
    Ok(Cube::new(zeros, ones, word)?)
}
