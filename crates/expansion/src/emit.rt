// Emitting: the products of the chosen expansion, in the order in which it is written.
ghost use Rattle.std.specs.Prelude.{◌≡◌, ◌≤◌, ◌++◌, length, drop};
ghost use Rattle.expansion.specs.Tables.{HasInputs};
ghost use Rattle.expansion.specs.Expansions.{needed, chosen_products};

use crate::survey::survey;
use cube::Cube;

// Writes the products of a table of k inputs, each a part of `product`, to the list from its start, and answers their
// number. The table is given back byte for byte.
pub(crate) fn emit(table: &mut [u8], k: u32, product: Cube, list: &mut [Cube]) -> usize
    requires inputs { HasInputs k table.old }
    requires room { needed k table.old ≤ length list.old }
    ensures count { result ≡ needed k table.old }
    ensures list { list.new ≡ chosen_products k table.old product ++ drop (needed k table.old) list.old }
    ensures table { table.new ≡ table.old }
{
    let Some(split) = survey(table, k).split else {
        if table[0] != 1 {
            return 0;
        }
        list[0] = product;
        return 1;
    };
    let half = table.len() / 2;
    // By place: to pick one of two lent halves in a `match` would be no plainer.
    let from = split.first_from(half);
    let first = product.with_form(k - 1, split.first_form());
    let count = emit(&mut table[from..from + half], k - 1, first, list);
    split.turn(table, half);
    let second = product.with_form(k - 1, split.second_form());
    let more = emit(&mut table[half..], k - 1, second, &mut list[count..]);
    split.turn(table, half);
    count + more
}
