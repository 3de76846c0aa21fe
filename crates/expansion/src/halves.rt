// The two halves of a table, and their exclusive or in the place of the upper one.
ghost use Rattle.std.specs.Prelude.{◌≡◌, ◌+◌, length};
ghost use Rattle.expansion.specs.Tables.{mixed, turned};

use crate::split::Split;

// Xors each byte of the lower half into that of the upper half. Done twice, it leaves the upper half as it was.
pub(crate) fn fold(upper: &mut [u8], lower: &[u8])
    requires { length lower.now ≡ length upper.old }
    ensures { upper.new ≡ mixed upper.old lower.now }
{
    // An index, since `zip` says nothing of what it leaves in the bytes that it lends.
    for (i, byte) in upper.iter_mut().enumerate() {
        *byte ^= lower[i];
    }
}

impl Split {
    // Puts the second summand's part into the upper half of the table, or takes it back.
    pub(crate) fn turn(self, table: &mut [u8], half: usize)
        requires { half + half ≡ length table.old }
        ensures { table.new ≡ turned self half table.old }
    {
        if self != Split::Shannon {
            let (lower, upper) = table.split_at_mut(half);
            fold(upper, lower);
        }
    }
}
