// Reads a sheet from standard input, and prints it again: its heading, its rows and its end, without the lines that
// reading skips; or why it is refused.
#![tactic(auto)]

use cube::Cube;
use esop::refusal::Refusal;
use input::fill;
use reader::read_sheet;
use sheet::write_sheet;
use std::io;
use std::io::Write;

// Prints the products of a list as a sheet.
fn print_sheet(rt: &HostRuntime, inputs: u32, outputs: u32, products: &[Cube]) -> io::Result<()> {
    let mut memory = [0u8; 64_000];
    match write_sheet(&mut memory, inputs, outputs, products) {
        Ok(len) => rt.stdout().write_all(&memory[0..len.min(64_000)]),
        Err(why) => println!(rt; "not written {}", why.number()),
    }
}

fn main(rt: HostRuntime) -> io::Result<()> {
    // one byte more than a text may have, so that a text that is too long is seen to be
    let mut text = [0u8; 64_001];
    let mut list = [Cube::tautology(); 960];
    let have = fill(&mut rt.stdin(), &mut text)?;
    match read_sheet(&text[0..have], &mut list) {
        Ok(heading) => {
            let rows = (heading.rows as usize).min(960);
            print_sheet(&rt, heading.inputs, heading.outputs, &list[0..rows])
        }
        Err(refused) => println!(rt; "{refused}"),
    }
}
