// Reads a sheet from standard input, and prints what its two runs did and the sheet that they left, or the line of a
// refusal.
#![tactic(auto)]

use input::fill;
use minimizer::print_minimized;
use std::io;
use std::io::Write;

fn main(rt: HostRuntime) -> io::Result<()> {
    // One byte more than a text may have, so that a text that is too long is seen to be. The program `larger` has the
    // same lines for files.
    let mut text = [0u8; 64_001];
    let have = fill(&mut rt.stdin(), &mut text)?;
    if let Some(len) = print_minimized(&mut text, have) {
        rt.stdout().write_all(&text[0..len])?;
    }
    Ok(())
}
