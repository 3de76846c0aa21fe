// A small text, loaded, shrunk and printed, and each refusal once.
use cover::memory::{Cover, MOST};
use cube::Cube;
use esop::refusal::Refusal;
use minimizer::{load, minimize, print_minimized};

const SHEET: [u8; 47] = *b".i 3\n.o 1\n.type esop\n.p 3\n11- 1\n00- 1\n-11 1\n.e\n";

const PRINTOUT: [u8; 107] = *b"# reduce tried 7 kept 1 finished\n# refine tried 6 kept 0 finished\n\
.i 3\n.o 1\n.type esop\n.p 2\n-10 1\n0-- 1\n.e\n";

// The count after a text is loaded into an empty cover of the places, or the number of the refusal.
fn loaded(text: &[u8], list: &mut [Cube], places: &mut [Cube]) -> Result<usize, u8> {
    let mut cover = Cover::<Cube, MOST>::open(places);
    load(text, list, &mut cover)
        .map(|loaded| loaded.count)
        .map_err(|why| why.number())
}

#[test]
fn loads(rt: HostRuntime) {
    let blank = [Cube::tautology(); 3];
    let mut list = blank;
    assert_eq!(rt;
        loaded(&SHEET[1..], &mut list, &mut [Cube::tautology(); 3]),
        Err(26)
    );
    assert_eq!(rt;
        loaded(&SHEET, &mut list, &mut [Cube::tautology(); 2]),
        Err(1)
    );
    assert_eq!(rt; list, blank);
    assert_eq!(rt;
        loaded(&SHEET, &mut list, &mut [Cube::tautology(); 3]),
        Ok(3)
    );
    assert_ne!(rt; list, blank);
}

// The number under which the sheet is not shrunk, if it is refused.
fn refused(places: &mut [Cube], list: &mut [Cube], work: &mut [Cube]) -> Option<u8> {
    let why = minimize(&SHEET, places, list, work).err()?;
    Some(why.number())
}

#[test]
fn refusals(rt: HostRuntime) {
    let mut two = [Cube::tautology(); 2];
    let mut three = [Cube::tautology(); 3];
    let mut four = [Cube::tautology(); 4];
    let mut five = [Cube::tautology(); 5];
    assert_eq!(rt; refused(&mut three, &mut two, &mut five), Some(26));
    assert_eq!(rt; refused(&mut two, &mut three, &mut five), Some(1));
    assert_eq!(rt; refused(&mut five, &mut three, &mut four), Some(6));
    assert_eq!(rt; refused(&mut four, &mut three, &mut five), None);
}

#[test]
fn prints(rt: HostRuntime) {
    let mut text = [0u8; 107];
    text[0..47].copy_from_slice(&SHEET);
    assert_eq!(rt; print_minimized(&mut text, 47), Some(107));
    assert_eq!(rt; text, PRINTOUT);
    assert_eq!(rt; print_minimized(&mut text, 46), Some(11));
    assert!(rt; &text[0..11] == b"refused 26\n".as_slice());
}

#[test]
fn memory_too_short(rt: HostRuntime) {
    let mut text = [0u8; 106];
    text[0..47].copy_from_slice(&SHEET);
    assert_eq!(rt; print_minimized(&mut text, 47), Some(11));
    assert!(rt; &text[0..11] == b"refused 28\n".as_slice());
}
