// The types: a block product, and why no product was made.
ghost use Rattle.std.specs.Prelude.{◌≡◌, true};
ghost use Rattle.block.specs.Bytes.{sound};

// A product of eight functions, of three inputs each. Byte g is the truth table of the function of inputs 3g to 3g + 2:
// bit v of it is the value at v = first + 2 * second + 4 * third. No byte is 0, since the product would cover nothing.
#[derive(Clone, Copy, Debug)]
pub struct BlockProduct {
    pub(crate) bytes: [u8; 8],
    ghost eight: { sound bytes ≡ true },
}

// Why eight bytes make no product.
#[derive(Clone, Copy, PartialEq, Eq, Debug)]
pub enum BlockRefusal {
    ZeroByte,
}

// Why a cube cannot be packed.
#[derive(Clone, Copy, PartialEq, Eq, Debug)]
pub enum PackRefusal {
    // an input from 24 on is present
    Input,
    // output 0 is not driven, or not alone
    Output,
}
