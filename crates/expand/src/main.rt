// Reads a truth table from standard input, and prints the sheet of its cheapest expansion or the line of a refusal.
#![tactic(auto)]

use expander::print_expansion;
use input::fill;
use std::io;
use std::io::Write;

fn main(rt: HostRuntime) -> io::Result<()> {
    // The longest table with its line feed, and one byte more: a longer input is too long already.
    let mut input = [0u8; 1026];
    let mut text = [0u8; 16384];
    let have = fill(&mut rt.stdin(), &mut input)?;
    if let Some(len) = print_expansion(&input[0..have], &mut text) {
        rt.stdout().write_all(&text[0..len])?;
    }
    Ok(())
}
