// A pen: memory that is being written, and the place that is written next.
ghost use Rattle.std.specs.Prelude.{◌≡◌, ◌+◌, ◌<◌, ◌≤◌, [], ◌∷◌, length, nat_le};
ghost use Rattle.sheet.specs.Pens.{Room, Wrote, WroteChars};
ghost use Rattle.sheet.specs.Text.{digit as digit_of, decimal};

use itoa::{Buffer, Integer};

// It is no `fmt::Write`: what `Display` promises holds where it answers `Ok`, and not that a text that fits is written.
#[derive(Drop)]
pub(crate) struct Pen<'a> {
    memory: &'a mut [u8],
    at: usize,
}

impl<'a> Pen<'a> {
    // A pen at a place of the memory.
    pub(crate) fn new(memory: &'a mut [u8], at: usize) -> Pen<'a>
        ensures same { result.memory.ghost_name ≡ memory.entry.ghost_name }
        ensures memory { result.memory.now ≡ memory.old }
        ensures at { result.at ≡ at }
    {
        Pen { memory, at }
    }

    // The place that is written next.
    pub(crate) fn at(&self) -> usize
        ensures { result ≡ self.now.at }
    {
        self.at
    }

    // Whether so many bytes fit what is left of the memory.
    pub(crate) fn has_room(&self, need: usize) -> bool
        ensures { result ≡ nat_le (self.now.at + need) (length self.now.memory.now) }
    {
        self.at <= self.memory.len() && need <= self.memory.len() - self.at
    }

    // Writes the bytes of `text`.
    pub(crate) fn text(&mut self, text: &[u8])
        requires { Room self.old text.now }
        ensures { Wrote self.old text.now self.new }
    {
        let past = self.at + text.len();
        self.memory[self.at..past].copy_from_slice(text);
        self.at = past;
    }

    // Writes n in decimal.
    pub(crate) fn decimal<I: Integer>(&mut self, n: I)
        requires { Room self.old (I.text n) }
        ensures { Wrote self.old (I.text n) self.new }
    {
        self.text(Buffer::new().format(n).as_bytes());
    }

    // Writes a number below 1000 in decimal, as those of a heading and of a refusal are: digit by digit, in less than
    // half the time that one of any size takes.
    pub(crate) fn short(&mut self, n: u32)
        requires short { n < 1000 }
        requires room { Room self.old (decimal n) }
        ensures { Wrote self.old (decimal n) self.new }
    {
        match n {
            0..=9 => self.text(&[digit(n)]),
            10..=99 => self.text(&[digit(n / 10), digit(n)]),
            _ => self.text(&[digit(n / 100), digit(n / 10), digit(n)]),
        }
    }

    // Writes one character. It is a store of its own, since for a text of one byte `text` takes several times as long.
    fn char(&mut self, char: u8)
        requires { self.old.at < length self.old.memory.now }
        ensures { Wrote self.old (char ∷ []) self.new }
    {
        self.memory[self.at] = char;
        self.at += 1;
    }

    // Writes n characters: of each number below n, the one that `char_at` answers.
    pub(crate) fn chars<F: Fn(u32) -> u8>(&mut self, n: u32, char_at: F)
        requires callable { F.IsAlwaysCallable char_at }
        requires room { self.old.at + n ≤ length self.old.memory.now }
        ensures { WroteChars (λ j r. F.post char_at j r) self.old n self.new }
    {
        for j in 0..n {
            self.char(char_at(j));
        }
    }
}

// The character of the last decimal digit of n.
fn digit(n: u32) -> u8
    ensures { result ≡ digit_of n }
{
    b'0' + (n % 10) as u8
}

// How many digits n has.
pub(crate) fn decimal_len<I: Integer>(n: I) -> usize
    ensures exact { result ≡ length (I.text n) }
    ensures few { result ≤ I.MAX_STR_LEN }
{
    Buffer::new().format(n).len()
}
