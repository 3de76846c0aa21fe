// Shrinks the sheets of data/, one after another in the order of their names, and prints the printout of each.
#![tactic(auto)]

use input::fill;
use minimizer::print_minimized;
use std::fs::File;
use std::io;
use std::io::Write;

// The program is run in a folder that has these files.
const SHEETS: [&str; 14] = [
    "9sym.esop",
    "example.esop",
    "life.esop",
    "mlp4.esop",
    "random_10_4.esop",
    "random_12_8.esop",
    "random_32_32.esop",
    "random_6_3.esop",
    "random_8_1.esop",
    "rd53.esop",
    "rd73.esop",
    "sqrt8.esop",
    "squar5.esop",
    "xor5.esop",
];

// Prints the printout of one sheet, or the line of its refusal. The program `minimize` has the same lines for its
// input: what an input holds is beyond any contract, so no public call but `fill` reads one.
fn print_sheet(rt: &HostRuntime, name: &str) -> io::Result<()> {
    // One byte more than a text may have, so that a text that is too long is seen to be.
    let mut text = [0u8; 64_001];
    let have = fill(&mut File::open(rt, name)?, &mut text)?;
    if let Some(len) = print_minimized(&mut text, have) {
        rt.stdout().write_all(&text[0..len])?;
    }
    Ok(())
}

fn main(rt: HostRuntime) -> io::Result<()> {
    for name in SHEETS {
        print_sheet(&rt, name)?;
    }
    Ok(())
}
