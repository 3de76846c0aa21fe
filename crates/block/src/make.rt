// Making block products, and looking at their bytes.
ghost use Rattle.std.specs.Prelude.{◌≡◌, ◌<◌, true, slice_set};
ghost use Rattle.block.specs.Bytes.{sound};
ghost use Rattle.block.specs.Blocks.{made, created, value};
ghost use Rattle.block.specs.Blocks;

use crate::block::{BlockProduct, BlockRefusal};
use esop::refusal::Refusal;

// The one place where a product is put together.
fn assembled(bytes: [u8; 8]) -> BlockProduct
    requires { sound bytes ≡ true }
    ensures { result ≡ made bytes }
{
    BlockProduct { bytes }
}

impl BlockProduct {
    // The product of eight bytes, of which none may be 0.
    #[tactic(auto, using(crate::specs::MakingLaws::sound_without, crate::specs::MakingLaws::unsound_with))]
    pub fn new(bytes: [u8; 8]) -> Result<BlockProduct, BlockRefusal>
        ensures { result ≡ created bytes }
    {
        if bytes.contains(&0) {
            return Err(BlockRefusal::ZeroByte);
        }
        Ok(assembled(bytes))
    }

    // Byte g, the truth table of inputs 3g to 3g + 2; 0 past the last.
    pub fn byte(&self, g: usize) -> u8
        ensures { result ≡ value self.now g }
    {
        self.bytes.get(g).copied().unwrap_or(0)
    }

    // The product with byte g replaced. The bound of the index, here and in two more private functions, is no type of
    // its own: the functions of a kind take any number.
    #[tactic(auto, using(crate::specs::MakingLaws::sound_set))]
    pub(crate) fn replaced(self, g: usize, byte: u8) -> BlockProduct
        requires position { g < 8 }
        requires nonzero { 0 < byte }
        ensures { result ≡ made (slice_set self.bytes g byte) }
    {
        let mut bytes = self.bytes;
        bytes[g] = byte;
        assembled(bytes)
    }
}

impl Refusal for BlockRefusal {
    ghost number = { Blocks.number };

    fn number(self) -> u8 {
        match self {
            BlockRefusal::ZeroByte => 10,
        }
    }
}
