// What the crate does on a few products.
use crate::block::{BlockProduct, BlockRefusal};
use crate::packing::pack;
use crate::sizes::size;
use cube::{Cube, Form};
use esop::product::Product;
use esop::refusal::Refusal;
use std::test::Fail;

// The product with this byte at position 1, which lets every point through elsewhere.
fn second(byte: u8) -> Result<BlockProduct, BlockRefusal> {
    BlockProduct::new([255, byte, 255, 255, 255, 255, 255, 255])
}

// Of the two inputs of that position that come first, 170 is the truth table of one, 204 that of the other.
#[test]
fn joins(rt: HostRuntime) -> Result<(), Fail> {
    let first = second(170)?;
    let other = second(204)?;
    let joined = first.join(other, 1);
    assert_eq!(rt; joined.byte(1), 102);
    assert_eq!(rt; joined.byte(0), 255);
    assert_eq!(rt; joined.weight(), 2);
    assert_eq!(rt; first.take(other, 1).byte(1), 204);
    assert_eq!(rt; first.distance(other), 1);
    Ok(())
}

// Input 3, the first of position 1, is bit 3 of a point.
#[test]
fn covers(rt: HostRuntime) -> Result<(), Fail> {
    let first = second(170)?;
    assert!(rt; first.covers(8) && !first.covers(16) && !first.covers(8 + (1 << 24)));
    Ok(())
}

#[test]
fn refuses(rt: HostRuntime) {
    assert_eq!(rt; second(0).err().map(Refusal::number), Some(10));
}

#[test]
fn sizes(rt: HostRuntime) {
    assert_eq!(rt; size(0), 0);
    assert_eq!(rt; size(255), 1);
    assert_eq!(rt; size(102), 2);
    assert_eq!(rt; size(1), 1);
}

// Input 0 negative and input 4 positive: 85 is the truth table of the first of three inputs negated, 204 that of the
// second.
#[test]
fn packs(rt: HostRuntime) -> Result<(), Fail> {
    let cube = Cube::tautology()
        .with_form(0, Form::Negative)
        .with_form(4, Form::Positive);
    let product = pack(&cube)?;
    assert_eq!(rt; product.byte(0), 85);
    assert_eq!(rt; product.byte(1), 204);
    assert_eq!(rt; product.byte(7), 255);
    Ok(())
}

#[test]
fn packing_refuses(rt: HostRuntime) -> Result<(), Fail> {
    let refused = |cube: Cube| pack(&cube).err().map(Refusal::number);
    let all = Cube::tautology();
    assert_eq!(rt; refused(all.with_form(24, Form::Negative)), Some(11));
    assert_eq!(rt; refused(all.with_form(31, Form::Positive)), Some(11));
    assert_eq!(rt; refused(all.with_form(23, Form::Positive)), None);
    let both = Cube::new(0xffff_ffff, 0xffff_ffff, 3)?;
    assert_eq!(rt; refused(both), Some(12));
    Ok(())
}
