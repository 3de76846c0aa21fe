// Block products as a kind of product.
ghost use Rattle.std.specs.Prelude.{◌≡◌, ◌<◌};
ghost use Rattle.esop.specs.Positionwise.{everywhere};
ghost use Rattle.block.specs.Blocks.{value};
ghost use Rattle.block.specs.Products.{passes, weight_of, blocks};
ghost use Rattle.block.specs.ProductLaws;

use crate::block::BlockProduct;
use crate::sizes::size;
use esop::product::Product;

// Whether the byte at position g is true at what the point has there.
fn passes(byte: u8, point: u64, g: usize) -> bool
    requires { g < 8 }
    ensures { result ≡ passes g byte point }
{
    let inputs = (point >> (3 * g)) % 8;
    (byte >> inputs) % 2 == 1
}

impl BlockProduct {
    // What the product comes to as a sum of cubes: one cube of each byte's, in every way. It is apart from `weight`, so
    // that a wrong weight is found there.
    fn cubes(self) -> u32
        ensures { result ≡ weight_of self.bytes }
    {
        self.bytes
            .iter()
            .map(|byte| u32::from(size(*byte)))
            .product()
    }

    // Whether all eight bytes let the point through.
    fn lets_through(self, point: u64) -> bool
        ensures { result ≡ everywhere (λ g. passes g (value self g) point) 8 }
    {
        (0..8).all(|g| passes(self.bytes[g], point, g))
    }
}

impl Product for BlockProduct {
    ghost meaning = { blocks };

    ghost lawful = { ProductLaws.lawful };

    fn differs(self, other: BlockProduct, i: usize) -> bool {
        i < 8 && self.bytes[i] != other.bytes[i]
    }

    #[tactic(auto, using(crate::specs::MakingLaws::value_nonzero))]
    fn take(self, other: BlockProduct, i: usize) -> BlockProduct {
        if i >= 8 {
            return self;
        }
        self.replaced(i, other.bytes[i])
    }

    #[tactic(auto, using(cube::specs::BitLaws::xor_some))]
    fn join(self, other: BlockProduct, i: usize) -> BlockProduct {
        if !self.differs(other, i) {
            return self;
        }
        self.replaced(i, self.bytes[i] ^ other.bytes[i])
    }

    fn weight(self) -> u32 {
        self.cubes()
    }

    fn covers(self, point: u64) -> bool {
        point < (1 << 24) && self.lets_through(point)
    }
}
