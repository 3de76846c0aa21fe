// Lines and what is printed for them, and each refusal that a line can meet.
use crate::print_expansion;

// Whether printing for the input answers just this text, in a memory of 48 bytes.
fn prints(input: &[u8], expected: &[u8]) -> bool {
    let mut text = [0u8; 48];
    print_expansion(input, &mut text).is_some_and(|len| len <= 48 && &text[..len] == expected)
}

#[test]
fn sheets(rt: HostRuntime) {
    assert!(rt; prints(b"0110\n", b".i 2\n.o 1\n.type esop\n.p 2\n0- 1\n-0 1\n.e\n"));
    assert!(rt; prints(b"0001", b".i 2\n.o 1\n.type esop\n.p 1\n11 1\n.e\n"));
    assert!(rt; prints(b"1\n", b".i 1\n.o 1\n.type esop\n.p 1\n- 1\n.e\n"));
    assert!(rt; prints(b"0\n", b".i 1\n.o 1\n.type esop\n.p 0\n.e\n"));
}

#[test]
fn refusals(rt: HostRuntime) {
    assert!(rt; prints(b"", b"refused 13\n"));
    assert!(rt; prints(b"011\n", b"refused 13\n"));
    assert!(rt; prints(&[48; 1026], b"refused 13\n"));
    assert!(rt; prints(b"01\n\n", b"refused 13\n"));
    assert!(rt; prints(b"0x\n", b"refused 14\n"));
    assert!(rt; prints(b"01\r\n", b"refused 13\n"));
    assert!(rt; prints(b"0110100110010110\n", b"refused 28\n"));
}

#[test]
fn memory_too_short_for_a_refusal(rt: HostRuntime) {
    let mut text = [7u8; 10];
    assert_eq!(rt; print_expansion(b"", &mut text), None);
    assert_eq!(rt; text, [7; 10]);
}
