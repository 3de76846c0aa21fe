// Looking at a cube.
ghost use Rattle.std.specs.Prelude.{◌≡◌, ◌<◌, ◌&&◌, ◌==◌};
ghost use Rattle.cube.specs.Bit.{bit};
ghost use Rattle.cube.specs.Cubes.{form_of, driven};

use crate::cube::{Cube, Form};

// Whether bit i of the word is set.
pub(crate) fn has(word: u32, i: u32) -> bool
    requires { i < 32 }
    ensures { result ≡ (bit word i == 1) }
{
    (word >> i) % 2 == 1
}

impl Cube {
    // The word of the inputs that may be 0.
    pub fn zeros(&self) -> u32
        ensures { result ≡ self.now.zeros }
    {
        self.zeros
    }

    // The word of the inputs that may be 1.
    pub fn ones(&self) -> u32
        ensures { result ≡ self.now.ones }
    {
        self.ones
    }

    // The word of the driven outputs.
    pub fn outputs(&self) -> u32
        ensures { result ≡ self.now.outputs }
    {
        self.outputs
    }

    // The form of input i; an input past the last is not looked at, so it is absent.
    pub fn form(&self, i: u32) -> Form
        ensures { result ≡ form_of self.now i }
    {
        if i >= 32 {
            return Form::Absent;
        }
        // One test after the other: a `match` of both takes half as much time again.
        if !has(self.zeros, i) {
            return Form::Positive;
        }
        if !has(self.ones, i) {
            return Form::Negative;
        }
        Form::Absent
    }

    // Whether output o is driven; one past the last never is.
    pub fn drives(&self, o: u32) -> bool
        ensures { result ≡ driven self.now o }
    {
        o < 32 && has(self.outputs, o)
    }
}
