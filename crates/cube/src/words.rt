// The three words of bits that a cube is made of.
ghost use Rattle.std.specs.Prelude.{◌≡◌, ◌<◌, bit_or};
ghost use Rattle.cube.specs.Bit.{chosen};
ghost use Rattle.cube.specs.Cubes.{made, formed, words};
ghost use Rattle.cube.specs.Positions.{taken_words, mixed_words};

use crate::cube::{Cube, Form};

// The inputs that may be 0, the inputs that may be 1, and the driven outputs.
#[derive(Clone, Copy)]
pub(crate) struct Words {
    pub(crate) zeros: u32,
    pub(crate) ones: u32,
    pub(crate) outputs: u32,
}

// The bits of b where the mask has a bit, and those of a elsewhere.
pub(crate) fn chosen(a: u32, b: u32, mask: u32) -> u32
    ensures { result ≡ chosen a b mask }
{
    a ^ ((a ^ b) & mask)
}

impl Words {
    // The one place where a cube is put together.
    pub(crate) fn cube(self) -> Cube
        requires full { bit_or self.zeros self.ones ≡ 4294967295 }
        requires driven { 0 < self.outputs }
        ensures { result ≡ made self }
    {
        Cube {
            zeros: self.zeros,
            ones: self.ones,
            outputs: self.outputs,
        }
    }

    // These words with input i in the given form.
    pub(crate) fn formed(self, i: u32, form: Form) -> Words
        requires { i < 32 }
        ensures { result ≡ formed self i form }
    {
        let at = 1 << i;
        let absent = Words {
            zeros: self.zeros | at,
            ones: self.ones | at,
            ..self
        };
        match form {
            Form::Negative => Words {
                ones: absent.ones ^ at,
                ..absent
            },
            Form::Positive => Words {
                zeros: absent.zeros ^ at,
                ..absent
            },
            Form::Absent => absent,
        }
    }

    // These words with position i of the others: an input, or at position 32 the outputs.
    pub(crate) fn taken(self, i: u32, other: Words) -> Words
        requires { i < 33 }
        ensures { result ≡ taken_words self i other }
    {
        if i == 32 {
            return Words {
                outputs: other.outputs,
                ..self
            };
        }
        let at = 1 << i;
        Words {
            zeros: chosen(self.zeros, other.zeros, at),
            ones: chosen(self.ones, other.ones, at),
            ..self
        }
    }

    // At each position the exclusive or: how two different values join.
    pub(crate) fn mixed(self, other: Words) -> Words
        ensures { result ≡ mixed_words self other }
    {
        Words {
            zeros: self.zeros ^ other.zeros,
            ones: self.ones ^ other.ones,
            outputs: self.outputs ^ other.outputs,
        }
    }
}

impl Cube {
    pub(crate) fn words(self) -> Words
        ensures { result ≡ words self }
    {
        Words {
            zeros: self.zeros,
            ones: self.ones,
            outputs: self.outputs,
        }
    }
}
