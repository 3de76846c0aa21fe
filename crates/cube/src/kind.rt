// Cubes as a kind of product. Positions 0 to 31 are the inputs, and position 32 holds the driven outputs.
ghost use Rattle.std.specs.Prelude.{◌≡◌, ◌<◌, bit_or, bit_xor};
ghost use Rattle.cube.specs.Cubes.{made, words};
ghost use Rattle.cube.specs.Covering.{value_of};
ghost use Rattle.cube.specs.Positions.{taken_words, cubes};
ghost use Rattle.cube.specs.PositionLaws.{cubes_lawful};

use crate::cube::Cube;
use crate::look::has;
use crate::words::{Words, chosen};
use esop::product::Product;

impl Cube {
    // This cube with position i of the words, whose value there is not 0: an input has a form, or an output is driven.
    fn replaced(self, i: usize, other: Words) -> Cube
        requires position { i < 33 }
        requires some { 0 < value_of other i }
        ensures { result ≡ made (taken_words (words self) i other) }
    {
        self.words().taken(i as u32, other).cube()
    }

    // The word of the inputs at which the two differ.
    fn unlike_inputs(self, other: Cube) -> u32
        ensures { result ≡ bit_or (bit_xor self.zeros other.zeros) (bit_xor self.ones other.ones) }
    {
        (self.zeros ^ other.zeros) | (self.ones ^ other.ones)
    }
}

impl Product for Cube {
    ghost meaning = { cubes };

    ghost lawful = { cubes_lawful };

    #[tactic(auto, using(crate::proofs::CodeLaws::unlike_bit))]
    fn differs(self, other: Cube, i: usize) -> bool {
        if i < 32 {
            has(self.unlike_inputs(other), i as u32)
        } else {
            i == 32 && self.outputs != other.outputs
        }
    }

    #[tactic(auto, using(crate::specs::PositionLaws::value_some))]
    fn take(self, other: Cube, i: usize) -> Cube {
        if i > 32 {
            return self;
        }
        self.replaced(i, other.words())
    }

    #[tactic(auto, using(crate::specs::PositionLaws::mixed_some))]
    fn join(self, other: Cube, i: usize) -> Cube {
        if !self.differs(other, i) {
            return self;
        }
        self.replaced(i, self.words().mixed(other.words()))
    }

    // The number of present inputs: they may be 0 or 1, and not both.
    #[tactic(auto, using(crate::proofs::CodeLaws::present_is))]
    fn weight(self) -> u32 {
        (self.zeros ^ self.ones).count_ones()
    }

    // Whether the point's output is driven, and each input may be as it is in the point's pattern.
    #[tactic(auto, using(crate::proofs::CodeLaws::covers_agreeing, crate::proofs::CodeLaws::covers_not))]
    fn covers(self, point: u64) -> bool {
        let pattern = (point & 0xffff_ffff) as u32;
        let output = (point >> 32) as u32;
        chosen(self.zeros, self.ones, pattern) == 0xffff_ffff && self.drives(output)
    }

    #[tactic(auto, using(crate::proofs::CodeLaws::distance_is))]
    fn distance(self, other: Cube) -> usize {
        let inputs = self.unlike_inputs(other).count_ones();
        (inputs + u32::from(self.outputs != other.outputs)) as usize
    }
}
