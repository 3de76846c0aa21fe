// Making cubes.
ghost use Rattle.std.specs.Prelude.{◌≡◌};
ghost use Rattle.cube.specs.Cubes.{created, made, words_of, with_form};
ghost use Rattle.cube.specs.Cubes;

use crate::cube::{Cube, CubeRefusal, Form};
use crate::words::Words;
use esop::refusal::Refusal;

impl Cube {
    // The cube of a word of inputs that may be 0, a word of inputs that may be 1, and a word of outputs.
    pub fn new(zeros: u32, ones: u32, outputs: u32) -> Result<Cube, CubeRefusal>
        ensures { result ≡ created (words_of zeros ones outputs) }
    {
        if zeros | ones != 0xffff_ffff {
            return Err(CubeRefusal::NoForm);
        }
        if outputs == 0 {
            return Err(CubeRefusal::NoOutput);
        }
        let words = Words {
            zeros,
            ones,
            outputs,
        };
        Ok(words.cube())
    }

    // The product that looks at no input and drives output 0: what the places of a list may hold before they are used.
    pub fn tautology() -> Cube
        ensures { result ≡ made (words_of 4294967295 4294967295 1) }
    {
        let words = Words {
            zeros: 0xffff_ffff,
            ones: 0xffff_ffff,
            outputs: 1,
        };
        words.cube()
    }

    // The cube with input i in the given form; the cube itself where there is no such input.
    #[tactic(auto, using(crate::specs::MakingLaws::formed_full))]
    pub fn with_form(self, i: u32, form: Form) -> Cube
        ensures { result ≡ with_form self i form }
    {
        if i >= 32 {
            return self;
        }
        self.words().formed(i, form).cube()
    }
}

impl Refusal for CubeRefusal {
    ghost number = { Cubes.number };

    fn number(self) -> u8 {
        match self {
            CubeRefusal::NoForm => 8,
            CubeRefusal::NoOutput => 9,
        }
    }
}
