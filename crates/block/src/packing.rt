// Packing: a cube of the first 24 inputs becomes the block product that covers the same points.
ghost use Rattle.std.specs.Prelude.{◌≡◌, ℕ, ◌^◌, ◌<◌, true};
ghost use Rattle.cube.specs.Covering.{covers};
ghost use Rattle.block.specs.Blocks.{made};
ghost use Rattle.block.specs.Packing.{form_table, keeps_inputs, packed, packed_byte, packed_bytes, SameCovering};
ghost use Rattle.block.specs.Products.{covered};
ghost use Rattle.block.specs.Packing;

use crate::block::{BlockProduct, PackRefusal};
use cube::{Cube, Form};
use esop::refusal::Refusal;
use std::array;

// The truth table of an input in a form; `own` is that of the input itself.
fn form_table(form: Form, own: u8) -> u8
    ensures { result ≡ form_table form own }
{
    match form {
        Form::Negative => 255 ^ own,
        Form::Positive => own,
        Form::Absent => 255,
    }
}

// The truth table of the cube's inputs 3g to 3g + 2.
#[tactic(auto, unfolding(crate::specs::Packing::packed_byte))]
fn packed_byte(cube: &Cube, g: u32) -> u8
    requires { g < 8 }
    ensures { result ≡ packed_byte cube.now g }
{
    let first = form_table(cube.form(3 * g), 170);
    let second = form_table(cube.form(3 * g + 1), 204);
    let third = form_table(cube.form(3 * g + 2), 240);
    first & second & third
}

// The eight truth tables.
fn packed_bytes(cube: &Cube) -> [u8; 8]
    ensures { result ≡ packed_bytes cube.now }
{
    array::from_fn(|g| packed_byte(cube, g as u32))
}

// Whether the inputs from 24 on are absent.
fn keeps_inputs(cube: &Cube) -> bool
    ensures { result ≡ keeps_inputs cube.now }
{
    (24..32).all(|i| cube.form(i) == Form::Absent)
}

// The product of the eight truth tables, of which none is 0. It is the answer where the cube has no input from 24 on
// and drives output 0 alone.
#[tactic(auto, using(crate::proofs::PackingLaws::bytes_sound, crate::proofs::PackingLaws::same_covering))]
fn packed_same(cube: &Cube) -> BlockProduct
    requires inputs { keeps_inputs cube.now ≡ true }
    requires output { cube.now.outputs ≡ 1 }
    ensures exact { result ≡ made (packed_bytes cube.now) }
    ensures same { (x : ℕ) → x < 2 ^ 24 → covered result x ≡ covers cube.now x }
{
    BlockProduct::new(packed_bytes(cube)).unwrap()
}

// The block product that covers the same of the points below 2^24 as the cube.
pub fn pack(cube: &Cube) -> Result<BlockProduct, PackRefusal>
    ensures answer { result ≡ packed cube.now }
    ensures same { SameCovering cube.now result }
{
    if !keeps_inputs(cube) {
        return Err(PackRefusal::Input);
    }
    if cube.outputs() != 1 {
        return Err(PackRefusal::Output);
    }
    Ok(packed_same(cube))
}

impl Refusal for PackRefusal {
    ghost number = { Packing.number };

    fn number(self) -> u8 {
        match self {
            PackRefusal::Input => 11,
            PackRefusal::Output => 12,
        }
    }
}
