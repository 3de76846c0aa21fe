// A small sheet, and each refusal once.
use crate::heading::Heading;
use crate::refuse::write_answer;
use crate::state::{Blank, Headed, WriteRefusal};
use crate::whole::write_sheet;
use cube::{Cube, CubeRefusal, Form};
use esop::refusal::Refusal;
use std::test::Fail;

const SMALL: [u8; 45] = *b".i 3\n.o 2\n.type esop\n.p 2\n01- 10\n--1 11\n.e\n??";

// A heading of these numbers.
fn heading(inputs: u32, outputs: u32, rows: u32) -> Heading {
    Heading {
        inputs,
        outputs,
        rows,
    }
}

// The rows of SMALL.
fn products() -> Result<[Cube; 2], CubeRefusal> {
    let first = Cube::new(0xffff_ffff, 0xffff_ffff, 1)?;
    let second = Cube::new(0xffff_ffff, 0xffff_ffff, 3)?;
    Ok([
        first
            .with_form(0, Form::Negative)
            .with_form(1, Form::Positive),
        second.with_form(2, Form::Positive),
    ])
}

// The next state of a sheet, where the call was accepted.
fn accepted<S, T: Drop>(answer: Result<S, (T, WriteRefusal)>) -> Result<S, Fail> {
    answer.map_err(|_| Fail::new("refused"))
}

#[test]
fn small_sheet_by_states(rt: HostRuntime) -> Result<(), Fail> {
    let [first, second] = products()?;
    let mut memory = [b'?'; 45];
    let sheet = accepted(Blank::new().head(&mut memory, heading(3, 2, 2)))?;
    let sheet = accepted(sheet.row(&mut memory, &first))?;
    let sheet = accepted(sheet.row(&mut memory, &second))?;
    let closed = accepted(sheet.end(&mut memory))?;
    assert_eq!(rt; closed.len(), 43);
    assert_eq!(rt; memory, SMALL);
    Ok(())
}

#[test]
fn small_sheet_at_once(rt: HostRuntime) -> Result<(), Fail> {
    let mut memory = [b'?'; 45];
    assert_eq!(rt; write_sheet(&mut memory, 3, 2, &products()?), Ok(43));
    assert_eq!(rt; memory, SMALL);
    Ok(())
}

// The number of the refusal, if there is one.
fn refused<S: Drop, T: Drop>(answer: Result<S, (T, WriteRefusal)>) -> Option<u8> {
    let (_, why) = answer.err()?;
    Some(why.number())
}

// A sheet of one input and one output, headed in 26 bytes.
fn headed(memory: &mut [u8], rows: u32) -> Result<Headed, Fail> {
    accepted(Blank::new().head(memory, heading(1, 1, rows)))
}

#[test]
fn heading_refusals(rt: HostRuntime) {
    let mut memory = [b'?'; 25];
    assert_eq!(rt;
        refused(Blank::new().head(&mut memory, heading(33, 1, 0))),
        Some(27)
    );
    assert_eq!(rt;
        refused(Blank::new().head(&mut memory, heading(1, 1, 0))),
        Some(28)
    );
    assert_eq!(rt; memory, [b'?'; 25]);
}

#[test]
fn row_refusals(rt: HostRuntime) -> Result<(), Fail> {
    let [first, _] = products()?;
    let mut memory = [b'?'; 26];
    let sheet = headed(&mut memory, 0)?;
    let before = memory;
    assert_eq!(rt; refused(sheet.row(&mut memory, &first)), Some(30));
    assert_eq!(rt; memory, before);
    let sheet = headed(&mut memory, 1)?;
    let before = memory;
    assert_eq!(rt; refused(sheet.row(&mut memory, &first)), Some(29));
    assert_eq!(rt; memory, before);
    Ok(())
}

#[test]
fn end_refusals(rt: HostRuntime) -> Result<(), Fail> {
    let mut memory = [b'?'; 26];
    let sheet = headed(&mut memory, 1)?;
    let before = memory;
    assert_eq!(rt; refused(sheet.end(&mut memory)), Some(31));
    assert_eq!(rt; memory, before);
    let sheet = headed(&mut memory, 0)?;
    let mut shorter = [b'?'; 4];
    assert_eq!(rt; refused(sheet.end(&mut shorter)), Some(28));
    assert_eq!(rt; shorter, [b'?'; 4]);
    Ok(())
}

#[test]
fn answers(rt: HostRuntime) {
    let mut memory = *b"a text....?";
    assert_eq!(rt; write_answer::<WriteRefusal>(&mut memory, Ok(6)), Some(6));
    assert_eq!(rt; memory, *b"a text....?");
    assert_eq!(rt;
        write_answer(&mut memory, Err(WriteRefusal::Full)),
        Some(11)
    );
    assert_eq!(rt; memory, *b"refused 28\n");
    let mut shorter = [b'?'; 10];
    assert_eq!(rt; write_answer(&mut shorter, Err(WriteRefusal::Full)), None);
    assert_eq!(rt; shorter, [b'?'; 10]);
}
