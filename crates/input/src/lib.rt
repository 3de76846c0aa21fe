// Standard input or a file into memory.
#![tactic(auto)]

ghost use Rattle.std.specs.Prelude.{◌≤◌, length, IfOk};

use std::io;
use std::io::Read;

// Reads from the start of the memory on, until the input ends or the memory is full, and answers the number of bytes
// read. What an input holds is beyond any contract; this one says that the answer is no more than the memory has.
pub fn fill<R: Read>(input: &mut R, memory: &mut [u8]) -> io::Result<usize>
    ensures { IfOk result (λ n. n ≤ length memory.old) }
{
    let len = memory.len();
    let mut rest = memory;
    while !rest.is_empty() {
        let more = input.read(rest)?;
        if more == 0 {
            break;
        }
        rest = &mut rest[more..];
    }
    Ok(len - rest.len())
}
