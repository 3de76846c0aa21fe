// The line of an input, and the table that it spells.
ghost use Rattle.std.specs.Prelude.{◌≡◌, ◌≤◌, ◌++◌, length, drop};
ghost use Rattle.expander.specs.Printing.{line_of, table_of};

// The input without the line feed that may end it.
pub(crate) fn line_of(input: &[u8]) -> &[u8]
    ensures { result.now ≡ line_of input.now }
{
    input.strip_suffix(b"\n").unwrap_or(input)
}

// Writes the bytes that the characters spell to the start of the table.
pub(crate) fn spell(line: &[u8], table: &mut [u8])
    requires { length line.now ≤ length table.old }
    ensures { table.new ≡ table_of line.now ++ drop (length line.now) table.old }
{
    // An index, since a loop over `table.iter_mut()` zipped with the line says nothing of what it leaves in the table.
    for (i, char) in line.iter().enumerate() {
        table[i] = *char ^ b'0';
    }
}
