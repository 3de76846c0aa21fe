// Worked examples, printed.
#![tactic(auto)]

mod covers;
mod kinds;
mod rows;

use std::io;

fn main(rt: HostRuntime) -> io::Result<()> {
    kinds::cubes(&rt)?;
    kinds::blocks(&rt)?;
    kinds::packing(&rt)?;
    covers::all(&rt)
}
