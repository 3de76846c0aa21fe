// The two kinds of product: distances, joins, weights, and packing one into the other.
use crate::rows::{Row, cube};
use block::{BlockProduct, BlockRefusal, pack, size};
use cube::Cube;
use esop::product::Product;
use esop::refusal::Refusal;
use std::io;

pub(crate) fn cubes(rt: &HostRuntime) -> io::Result<()> {
    let both = cube("11", 1);
    let none = cube("00", 1);
    println!(rt;
        "11 and 00: distance {}, weight of each {}",
        both.distance(none),
        both.weight()
    )?;
    println!(rt;
        "1- 10 and 1- 11 join to {}",
        Row {
            cube: cube("1-", 1).join(cube("1-", 3), 32),
            inputs: 2,
            outputs: 2,
        }
    )?;
    println!(rt;
        "0 1 and - 1 join to {}",
        Row {
            cube: cube("0", 1).join(cube("-", 1), 0),
            inputs: 1,
            outputs: 1,
        }
    )?;
    println!(rt;
        "11 1 with input 1 of 00 1 is {}",
        Row {
            cube: both.take(none, 1),
            inputs: 2,
            outputs: 1,
        }
    )
}

// The product with this byte at position 0, and 255 at the others.
fn block(byte: u8) -> Result<BlockProduct, BlockRefusal> {
    BlockProduct::new([byte, 255, 255, 255, 255, 255, 255, 255])
}

// What two products with these bytes at position 0 join to there.
fn print_joined(rt: &HostRuntime, first: BlockProduct, second: BlockProduct) -> io::Result<()> {
    let joined = first.join(second, 0);
    println!(rt;
        "170 and 204 join to {}, of size {}; the product weighs {}",
        joined.byte(0),
        size(joined.byte(0)),
        joined.weight()
    )
}

// Neither 170 nor 204 is 0, so both make a product.
pub(crate) fn blocks(rt: &HostRuntime) -> io::Result<()> {
    if let (Ok(first), Ok(second)) = (block(170), block(204)) {
        print_joined(rt, first, second)?;
    }
    if let Err(why) = block(0) {
        println!(rt; "a byte 0 is refused {}", why.number())?;
    }
    Ok(())
}

// What packing the cube answers.
fn print_packed(rt: &HostRuntime, text: &str, cube: &Cube) -> io::Result<()> {
    match pack(cube) {
        Ok(product) => println!(rt;
            "{text} packs to bytes {}, {}, ..",
            product.byte(0),
            product.byte(1)
        ),
        Err(why) => println!(rt; "{text} is refused {}", why.number()),
    }
}

pub(crate) fn packing(rt: &HostRuntime) -> io::Result<()> {
    print_packed(rt, "0---1", &cube("0---1", 1))?;
    print_packed(rt, "1 at input 24", &cube("------------------------1", 1))?;
    print_packed(rt, "1- 11", &cube("1-", 3))
}
