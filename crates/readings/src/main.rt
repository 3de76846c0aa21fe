// What reading answers for many texts: a line for each, `ok` with the numbers of the heading, or `refused` with the
// number and the line.
#![tactic(auto)]

use cube::Cube;
use reader::read_sheet;
use std::io;

fn answer(rt: &HostRuntime, text: &[u8]) -> io::Result<()> {
    let mut list = [Cube::tautology(); 960];
    match read_sheet(text, &mut list) {
        Ok(heading) => println!(rt;
            "ok {} {} {}",
            heading.inputs, heading.outputs, heading.rows
        ),
        Err(refused) => println!(rt; "{refused}"),
    }
}

// Accepted texts, and texts that end wrongly.
const WHOLE: [&str; 8] = [
    ".i 2\n.o 1\n.type esop\n.p 2\n11 1\n00 1\n.e\n",
    "",
    "# head\n\n.i 2\n# a\n.o 1\n\n.type esop\n.p 1\n#row\n1- 1\n\n.e\n",
    ".i 2\n.o 1\n.type esop\n.p 2\n11 1\n00 1\n.e",
    ".i 2\n#",
    ".i 2\n.o 1\n.type esop\n.p 2\n11 1\n00 1\n.e\n\n",
    ".i 2\n.o 1\n.type esop\n.p 2\n11 1\n00 1\n.e\n# x\n",
    ".i 2\n.o 1\n.type esop\n.p 2\n11 1\n00 1\n",
];

// Lines of the heading.
const HEADING: [&str; 15] = [
    ".o 1\n",
    "11 1\n",
    ".i 0\n",
    ".i 33\n",
    ".i 02\n",
    ".i  2\n",
    ".i2\n",
    ".inputs 2\n",
    ".i 2 \n",
    ".i 2\r\n",
    ".i 2\n.o 33\n",
    ".i 2\n.o 1\n.type f\n",
    ".i 2\n.o 1\n.type esop \n",
    ".i 2\n.o 1\n.type esop\n.p 961\n",
    ".i 2\n.o 1\n.type esop\n.p 0\n.e\n",
];

// Rows, the end, and a number of many digits.
const ROWS: [&str; 11] = [
    ".i 2\n.o 1\n.type esop\n.p 1\n11 1\n00 1\n.e\n",
    ".i 2\n.o 1\n.type esop\n.p 1\n11 1\nxx\n.e\n",
    ".i 2\n.o 1\n.type esop\n.p 2\n11 1\n.e\n",
    ".i 2\n.o 1\n.type esop\n.p 1\n.end\n",
    ".i 2\n.o 1\n.type esop\n.p 0\n.e \n",
    ".i 2\n.o 1\n.type esop\n.p 1\n111 1\n.e\n",
    ".i 2\n.o 1\n.type esop\n.p 1\n1 1\n.e\n",
    ".i 2\n.o 1\n.type esop\n.p 1\n12 1\n.e\n",
    ".i 2\n.o 1\n.type esop\n.p 1\n11 -\n.e\n",
    ".i 2\n.o 1\n.type esop\n.p 1\n11 0\n.e\n",
    ".i 18446744073709551618\n",
];

// Rules that meet in one line.
const MORE: [&str; 12] = [
    ".i\n",
    ".i 2\n.o 1\n.type esop\n.p 0\n11 1\n",
    ".i 2\n.o 1\n.type esop\n.type esop\n",
    ".i 2\n.o 1\n.type esop\n.p 1\n.\n",
    ".i 1\n.o 2\n.type esop\n.p 1\n1 -1\n",
    ".i 1\n.o 2\n.type esop\n.p 1\n1  1\n",
    ".i 1\n.o 2\n.type esop\n.p 01\n",
    ".i 1\n.o 1\n.type esop\n.p 960\n",
    ".e\n",
    ".i 2\n.o 1\n.type esop\n.p 1\n11 1\n.i 2\n",
    "\n",
    ".i 2\n.o 1\n.type esop\n.p 1\n",
];

// A byte in each kind of line, where a text has a question mark.
const EVERYWHERE: [&str; 12] = [
    "#?\n.i 2\n.o 1\n.type esop\n.p 1\n11 1\n.e\n",
    "?\n.i 2\n.o 1\n.type esop\n.p 1\n",
    ".i 2?\n",
    ".i 2\n.o?1\n",
    ".i 2\n.o 1\n.type esop?\n",
    ".i 2\n.o 1\n.type esop\n.p 1?\n",
    ".i 2\n.o 1\n.type esop\n.p 1\n1? 1\n",
    ".i 2\n.o 1\n.type esop\n.p 1\n11 ?\n",
    ".i 2\n.o 1\n.type esop\n.p 1\n11?1\n",
    ".i 2\n.o 1\n.type esop\n.p 1\n11 1\n.e?\n",
    ".i 2\n.o 1\n.type esop\n.p 1\n11 1\n.e\n?\n",
    ".i 2\n.o 1\n.type esop\n.p 1\n11 1\n.e\n?",
];

// What is answered for each of the texts.
fn all(rt: &HostRuntime, texts: &[&str]) -> io::Result<()> {
    for text in texts {
        answer(rt, text.as_bytes())?;
    }
    Ok(())
}

// The same with this byte for each question mark. The memory has more bytes than any of these texts, so each is read;
// it is no `Vec`, since a program that reads no input needs no memory but its own.
fn all_with(rt: &HostRuntime, texts: &[&str], byte: u8) -> io::Result<()> {
    let mut memory = [0u8; 64];
    for text in texts {
        if let Some(bytes) = memory.get_mut(..text.len()) {
            bytes.copy_from_slice(text.as_bytes());
            for char in bytes.iter_mut().filter(|char| **char == b'?') {
                *char = byte;
            }
            answer(rt, bytes)?;
        }
    }
    Ok(())
}

// A sheet after a comment that fills the text.
fn padded(rt: &HostRuntime, text: &mut [u8]) -> io::Result<()> {
    let sheet = b"\n.i 2\n.o 1\n.type esop\n.p 2\n11 1\n00 1\n.e\n";
    if text.len() >= sheet.len() {
        let start = text.len() - sheet.len();
        text[start..].copy_from_slice(sheet);
    }
    answer(rt, text)
}

// The longest text that is read, and a text of a byte more.
fn lengths(rt: &HostRuntime) -> io::Result<()> {
    let mut longest = [b'#'; 64_000];
    padded(rt, &mut longest)?;
    let mut longer = [b'#'; 64_001];
    padded(rt, &mut longer)
}

fn main(rt: HostRuntime) -> io::Result<()> {
    all(&rt, &WHOLE)?;
    all(&rt, &HEADING)?;
    all(&rt, &ROWS)?;
    all(&rt, &MORE)?;
    for byte in [0, 13, 255] {
        all_with(&rt, &EVERYWHERE, byte)?;
    }
    lengths(&rt)
}
