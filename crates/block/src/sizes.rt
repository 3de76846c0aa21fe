// How many cubes of three inputs a byte takes.
ghost use Rattle.std.specs.Prelude.{◌≡◌};
ghost use Rattle.block.specs.Sizes.{size_of, Fewest};

// For each byte, the fewest cubes of three inputs whose exclusive or it is. One entry in sixteen names its byte.
const SIZES: [u8; 256] = [
    0, // 0x00
    1, 1, 1, 1, 1, 2, 2, 1, 2, 1, 2, 1, 2, 2, 1, 1, // 0x10
    1, 2, 2, 2, 2, 3, 3, 2, 2, 2, 2, 2, 2, 2, 2, 1, // 0x20
    2, 1, 2, 2, 2, 2, 2, 2, 3, 2, 3, 2, 2, 2, 2, 1, // 0x30
    2, 2, 1, 2, 2, 2, 2, 2, 2, 2, 2, 2, 3, 3, 2, 1, // 0x40
    2, 2, 2, 1, 2, 2, 2, 2, 3, 2, 2, 2, 3, 2, 2, 1, // 0x50
    2, 2, 2, 2, 1, 2, 2, 2, 2, 2, 3, 2, 2, 3, 2, 2, // 0x60
    3, 2, 2, 2, 2, 2, 3, 3, 3, 2, 3, 2, 3, 3, 3, 2, // 0x70
    3, 2, 2, 2, 2, 3, 2, 2, 3, 3, 3, 3, 3, 3, 2, 1, // 0x80
    2, 2, 2, 2, 2, 3, 2, 1, 2, 2, 2, 2, 2, 3, 2, 2, // 0x90
    2, 3, 2, 3, 2, 3, 3, 2, 2, 2, 3, 2, 3, 3, 3, 1, // 0xa0
    2, 2, 2, 2, 2, 2, 3, 2, 2, 1, 2, 2, 3, 2, 2, 2, // 0xb0
    2, 3, 2, 2, 3, 3, 3, 2, 3, 2, 2, 3, 3, 3, 2, 1, // 0xc0
    2, 2, 2, 2, 2, 2, 3, 2, 2, 2, 3, 1, 2, 2, 2, 2, // 0xd0
    2, 2, 3, 3, 2, 3, 3, 2, 3, 3, 3, 2, 2, 3, 2, 2, // 0xe0
    2, 2, 3, 2, 3, 3, 3, 3, 3, 2, 3, 2, 3, 2, 2, 1, // 0xf0
    2, 2, 2, 2, 2, 3, 2, 2, 3, 2, 2, 2, 2, 2, 1,
];

// The entry of a byte: the only code that knows how the sizes are stored.
fn looked_up(byte: u8) -> u8
    ensures { result ≡ size_of byte }
{
    SIZES[byte as usize]
}

// The size of the byte, which is the fewest. It is apart from `size`, so that a size of another byte is found there,
// and not in the proof that this is the fewest.
fn fewest_of(byte: u8) -> u8
    ensures exact { result ≡ size_of byte }
    ensures fewest { Fewest byte result }
{
    looked_up(byte)
}

// The fewest cubes of three inputs whose exclusive or is the byte.
pub fn size(byte: u8) -> u8
    ensures exact { result ≡ size_of byte }
    ensures fewest { Fewest byte result }
{
    fewest_of(byte)
}
