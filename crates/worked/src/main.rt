// Worked examples that are proved, and what is read of rows.
#![tactic(auto)]

mod texts;
mod worked;

use std::io;

fn main(rt: HostRuntime) -> io::Result<()> {
    let count = worked::worked_examples();
    println!(rt; "proved: {count} worked examples")?;
    texts::all(&rt)
}
