// Each refusal once, and what an accepted text leaves in the list.
use crate::read::read_sheet;
use crate::state::Heading;
use cube::{Cube, Form};
use esop::refusal::Refusal;
use std::test::Fail;

// The number and the line under which the text is refused.
fn refused(text: &[u8], places: usize) -> Option<(u8, usize)> {
    let mut list = [Cube::tautology(); 2];
    let refused = read_sheet(text, &mut list[..places.min(2)]).err()?;
    Some((refused.why.number(), refused.line))
}

#[test]
fn a_row_and_a_place_past_it(rt: HostRuntime) -> Result<(), Fail> {
    let before = Cube::new(1, 0xffff_ffff, 7)?;
    let mut list = [before; 2];
    let heading = read_sheet(
        b"# a\n.i 3\n.o 2\n\n.type esop\n.p 1\n01- 10\n.e\n",
        &mut list,
    );
    assert_eq!(rt;
        heading,
        Ok(Heading {
            inputs: 3,
            outputs: 2,
            rows: 1,
        })
    );
    let row = Cube::new(0xffff_ffff, 0xffff_ffff, 1)?;
    let row = row
        .with_form(0, Form::Negative)
        .with_form(1, Form::Positive);
    assert_eq!(rt; list, [row, before]);
    Ok(())
}

#[test]
fn refused_by_the_heading(rt: HostRuntime) {
    assert_eq!(rt; refused(b".i 3", 2), Some((18, 1)));
    assert_eq!(rt; refused(b"#\n.o 3\n", 2), Some((19, 2)));
    assert_eq!(rt; refused(b"", 2), Some((20, 1)));
    assert_eq!(rt; refused(b".i 33\n", 2), Some((21, 1)));
    assert_eq!(rt;
        refused(b".i 1\n.o 1\n.type esop\n.p 2\n", 1),
        Some((25, 4))
    );
}

#[test]
fn refused_by_a_row(rt: HostRuntime) {
    assert_eq!(rt;
        refused(b".i 1\n.o 1\n.type esop\n.p 1\n11 1\n", 2),
        Some((22, 5))
    );
    assert_eq!(rt;
        refused(b".i 1\n.o 1\n.type esop\n.p 1\n1 0\n", 2),
        Some((23, 5))
    );
    assert_eq!(rt;
        refused(b".i 1\n.o 1\n.type esop\n.p 1\n.e\n", 2),
        Some((24, 5))
    );
}

#[test]
fn refused_by_its_length(rt: HostRuntime) {
    let text = [b'#'; 64_001];
    assert_eq!(rt; refused(&text, 2), Some((17, 0)));
    assert_eq!(rt; refused(&text[0..64_000], 2), Some((18, 1)));
}
