// What a program prints: a text, or the line of a refusal.
ghost use Rattle.std.specs.Prelude.{◌≡◌, length};
ghost use Rattle.sheet.specs.Pens.{Room, Wrote};
ghost use Rattle.sheet.specs.Refusing.{refusal_text, length_within, kept_within, answer_length, answer_memory, PrintsAnswered};

use crate::pen::{Pen, decimal_len};
use esop::refusal::Refusal;

// How long the line of a refusal is.
#[tactic(auto, using(crate::proofs::PutLaws::refusal_length, crate::proofs::DecimalLaws::decimal_short_length))]
fn refusal_len(number: u8) -> usize
    ensures { result ≡ length (refusal_text number) }
{
    decimal_len(number) + 9
}

impl Pen<'_> {
    // Writes the line of a refusal.
    #[tactic(auto, using(crate::proofs::PutLaws::refusal_length, crate::proofs::DecimalLaws::decimal_short_length))]
    fn refusal(&mut self, number: u8)
        requires { Room self.old (refusal_text number) }
        ensures { Wrote self.old (refusal_text number) self.new }
    {
        self.text(b"refused ");
        self.short(u32::from(number));
        self.text(b"\n");
    }
}

// Writes the line of a refusal to the start of the memory, and answers the number of its bytes; where the memory is too
// short for it, nothing is written. It takes any number; for a type of refusals there is `write_answer`.
pub fn write_refusal(memory: &mut [u8], number: u8) -> Option<usize>
    ensures answer { result ≡ length_within memory.old (refusal_text number) }
    ensures text { memory.new ≡ kept_within memory.old (refusal_text number) }
{
    let mut pen = Pen::new(memory, 0);
    if !pen.has_room(refusal_len(number)) {
        return None;
    }
    pen.refusal(number);
    Some(pen.at())
}

// What is printed of an answer: the text of so many bytes that stands at the start of the memory already, or else the
// line of the refusal, which is written there. It answers the number of bytes; where the memory is too short for the
// line, nothing is written.
pub fn write_answer<R: Refusal>(memory: &mut [u8], answer: Result<usize, R>) -> Option<usize>
    ensures answer { result ≡ answer_length R.number answer memory.old }
    ensures text { memory.new ≡ answer_memory R.number answer memory.old }
    ensures printed { PrintsAnswered R.number answer memory.old result memory.new }
{
    match answer {
        Ok(len) => Some(len),
        Err(why) => write_refusal(memory, why.number()),
    }
}
