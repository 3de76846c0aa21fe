// Small tables by hand, a table of ten inputs, and each refusal with table and list looked at afterwards.
use crate::{ExpandRefusal, expand};
use cube::{Cube, Form};
use esop::refusal::Refusal;
use std::array;
use std::test::Fail;

// The product of no input that drives output 5: what the places of a list hold beforehand.
fn filler() -> Result<Cube, Fail> {
    Ok(Cube::new(0xffff_ffff, 0xffff_ffff, 32)?)
}

#[test]
fn exclusive_or_of_two(rt: HostRuntime) -> Result<(), Fail> {
    let all = Cube::new(0xffff_ffff, 0xffff_ffff, 1)?;
    let mut table = [0, 1, 1, 0];
    let mut list = [filler()?; 3];
    assert_eq!(rt; expand(&mut table, 0, &mut list), Ok(2));
    assert_eq!(rt; list[0], all.with_form(0, Form::Negative));
    assert_eq!(rt; list[1], all.with_form(1, Form::Negative));
    assert_eq!(rt; list[2], filler()?);
    assert_eq!(rt; table, [0, 1, 1, 0]);
    Ok(())
}

#[test]
fn and_of_two_at_the_last_output(rt: HostRuntime) -> Result<(), Fail> {
    let all = Cube::new(0xffff_ffff, 0xffff_ffff, 0x8000_0000)?;
    let mut table = [0, 0, 0, 1];
    let mut list = [filler()?; 1];
    assert_eq!(rt; expand(&mut table, 31, &mut list), Ok(1));
    assert_eq!(rt;
        list[0],
        all.with_form(1, Form::Positive)
            .with_form(0, Form::Positive)
    );
    assert_eq!(rt; table, [0, 0, 0, 1]);
    Ok(())
}

#[test]
fn tables_of_one_byte(rt: HostRuntime) -> Result<(), Fail> {
    let mut list = [filler()?; 1];
    assert_eq!(rt; expand(&mut [0], 0, &mut list), Ok(0));
    assert_eq!(rt; list[0], filler()?);
    assert_eq!(rt; expand(&mut [1], 0, &mut list), Ok(1));
    assert_eq!(rt; list[0], Cube::new(0xffff_ffff, 0xffff_ffff, 1)?);
    Ok(())
}

// The parity of ten inputs: each input alone, complemented where that pairs up.
#[test]
fn parity_of_ten(rt: HostRuntime) -> Result<(), Fail> {
    let mut table: [u8; 1024] = array::from_fn(|p| (p.count_ones() % 2) as u8);
    let mut list = [filler()?; 960];
    assert_eq!(rt; expand(&mut table, 0, &mut list), Ok(10));
    assert_eq!(rt; list[10], filler()?);
    assert_eq!(rt; table[1022], 1);
    assert_eq!(rt; table[1023], 0);
    Ok(())
}

#[test]
fn refusals_change_nothing(rt: HostRuntime) -> Result<(), Fail> {
    let mut list = [filler()?; 1];
    let mut three = [1, 0, 1];
    assert_eq!(rt;
        expand(&mut three, 0, &mut list),
        Err(ExpandRefusal::Length)
    );
    assert_eq!(rt; three, [1, 0, 1]);
    assert_eq!(rt; expand(&mut [], 0, &mut list), Err(ExpandRefusal::Length));
    assert_eq!(rt;
        expand(&mut [0; 2048], 0, &mut list),
        Err(ExpandRefusal::Length)
    );
    let mut byte = [1, 2];
    assert_eq!(rt; expand(&mut byte, 32, &mut list), Err(ExpandRefusal::Byte));
    assert_eq!(rt; byte, [1, 2]);
    let mut table = [0, 1, 1, 0];
    assert_eq!(rt;
        expand(&mut table, 32, &mut list),
        Err(ExpandRefusal::Output)
    );
    assert_eq!(rt; expand(&mut table, 0, &mut list), Err(ExpandRefusal::Room));
    assert_eq!(rt; table, [0, 1, 1, 0]);
    assert_eq!(rt; list[0], filler()?);
    Ok(())
}

#[test]
fn numbers(rt: HostRuntime) {
    assert_eq!(rt; ExpandRefusal::Length.number(), 13);
    assert_eq!(rt; ExpandRefusal::Byte.number(), 14);
    assert_eq!(rt; ExpandRefusal::Output.number(), 15);
    assert_eq!(rt; ExpandRefusal::Room.number(), 16);
}
