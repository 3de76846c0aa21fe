// Sheets that are refused for their row.
use cube::Cube;
use reader::read_sheet;
use std::io;

// What reading a sheet of two inputs, one output and this row answers.
fn print_read(rt: &HostRuntime, row: &str) -> io::Result<()> {
    let text = format!(in rt.alloc(); ".i 2\n.o 1\n.type esop\n.p 1\n{row}\n.e\n")?;
    match read_sheet(text.as_bytes(), &mut [Cube::tautology(); 1]) {
        Ok(_) => println!(rt; "row {row} under .i 2 and .o 1: read"),
        Err(refused) => println!(rt; "row {row} under .i 2 and .o 1: {refused}"),
    }
}

pub(crate) fn all(rt: &HostRuntime) -> io::Result<()> {
    print_read(rt, "11 1")?;
    print_read(rt, "111 1")?;
    print_read(rt, "11 0")
}
