// Worked examples. A row such as `1- 01` has a place for each input, with 0, 1 or - for absent, and then a place for
// each output; the inputs that it leaves out are absent.
use crate::cube::{Cube, Form};
use esop::product::Product;
use esop::refusal::Refusal;
use std::test::Fail;

// The cube with the first two inputs in the given forms.
fn row(first: Form, second: Form, outputs: u32) -> Result<Cube, Fail> {
    let none_present = Cube::new(0xffff_ffff, 0xffff_ffff, outputs)?;
    Ok(none_present.with_form(0, first).with_form(1, second))
}

#[test]
fn refusals(rt: HostRuntime) {
    let refused = |zeros, ones| Cube::new(zeros, ones, 0).map_err(Refusal::number);
    assert_eq!(rt; refused(0xffff_fffe, 0xffff_fffe), Err(8));
    assert_eq!(rt; refused(0xffff_ffff, 0), Err(9));
}

#[test]
fn outputs_join(rt: HostRuntime) -> Result<(), Fail> {
    // `1- 10` and `1- 11` join to `1- 01`.
    let a = row(Form::Positive, Form::Absent, 1)?;
    let b = row(Form::Positive, Form::Absent, 3)?;
    assert_eq!(rt; a.difference(b, 0), Some(32));
    assert_eq!(rt; a.join(b, 32), row(Form::Positive, Form::Absent, 2)?);
    Ok(())
}

#[test]
fn forms_join(rt: HostRuntime) -> Result<(), Fail> {
    // `0- 1` and `-- 1` join to `1- 1`.
    let a = row(Form::Negative, Form::Absent, 1)?;
    let b = row(Form::Absent, Form::Absent, 1)?;
    assert!(rt; a.differs(b, 0));
    assert_eq!(rt; a.join(b, 0), row(Form::Positive, Form::Absent, 1)?);
    Ok(())
}

#[test]
fn far_apart(rt: HostRuntime) -> Result<(), Fail> {
    let a = row(Form::Positive, Form::Positive, 1)?;
    let b = row(Form::Negative, Form::Negative, 1)?;
    assert_eq!(rt; a.distance(b), 2);
    assert_eq!(rt; a.take(b, 1).distance(b), 1);
    assert_eq!(rt; a.weight(), 2);
    Ok(())
}

#[test]
fn points(rt: HostRuntime) -> Result<(), Fail> {
    // `10 01`: the patterns with bit 0 and without bit 1, at output 1.
    let a = row(Form::Positive, Form::Negative, 2)?;
    assert!(rt; a.covers(0x1_0000_0001));
    assert!(rt; a.covers(0x1_ffff_fffd));
    assert!(rt; !a.covers(0x1_0000_0003));
    assert!(rt; !a.covers(1));
    assert!(rt; !a.covers(0x21_0000_0001));
    Ok(())
}
