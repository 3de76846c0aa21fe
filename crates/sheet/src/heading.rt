// The numbers that the heading of a sheet tells, and what follows from them.
ghost use Rattle.std.specs.Prelude.{◌≡◌, ◌+◌, ◌<◌, true, List, length};
ghost use Rattle.cube.specs.declared.cube.Cube.{Cube as Product};
ghost use Rattle.sheet.specs.Text.{heading_text, row_text, sheet_text, keeps_at, keeps_to};
ghost use Rattle.sheet.specs.Writing.{in_range, all_keep};

use crate::pen::decimal_len;
use crate::put::END;
use cube::{Cube, Form};

// How many inputs and outputs the products have, and how many rows follow.
#[derive(Clone, Copy, PartialEq, Eq, Debug)]
pub struct Heading {
    pub inputs: u32,
    pub outputs: u32,
    pub rows: u32,
}

impl Heading {
    // Whether a sheet may have these numbers. It is asked once by each call; a type for numbers that were asked would
    // be a second `Heading`, for a few private functions.
    pub(crate) fn in_range(self) -> bool
        ensures { result ≡ in_range self.inputs self.outputs self.rows }
    {
        matches!(
            self,
            Heading {
                inputs: 1..=32,
                outputs: 1..=32,
                rows: 0..=960,
            }
        )
    }

    // How long the text of the heading is.
    #[tactic(auto, using(crate::proofs::DecimalLaws::heading_lengths, crate::proofs::DecimalLaws::range_short))]
    pub(crate) fn text_len(self) -> usize
        requires { in_range self.inputs self.outputs self.rows ≡ true }
        ensures { (result ≡ length (heading_text self.inputs self.outputs self.rows)) × (result < 100) }
    {
        decimal_len(self.inputs) + decimal_len(self.outputs) + decimal_len(self.rows) + 23
    }

    // How long a row is, whichever its product.
    #[tactic(auto, using(crate::proofs::PutLaws::row_length))]
    pub(crate) fn row_len(self) -> usize
        ensures { ((c : Product) → result ≡ length (row_text self.inputs self.outputs c)) × (result ≡ self.inputs + self.outputs + 2) }
    {
        self.inputs as usize + self.outputs as usize + 2
    }

    // How long the whole sheet is, whichever its products.
    #[tactic(auto, using(crate::proofs::SheetLaws::sheet_length))]
    pub(crate) fn sheet_len(self) -> usize
        requires { in_range self.inputs self.outputs self.rows ≡ true }
        ensures { (cs : List Product) → length cs ≡ self.rows → result ≡ length (sheet_text self.inputs self.outputs cs) }
    {
        self.text_len() + self.rows as usize * self.row_len() + END.len()
    }

    // Whether the product says nothing of an input and an output at place j that the heading does not tell.
    fn kept_at(self, product: &Cube, j: u32) -> bool
        ensures { result ≡ keeps_at self.inputs self.outputs product.now j }
    {
        // in one expression, so that a place that the heading tells is not looked at
        (j < self.inputs || matches!(product.form(j), Form::Absent))
            && (j < self.outputs || !product.drives(j))
    }

    // Whether the product has only inputs and outputs that the heading tells.
    pub(crate) fn kept_by(self, product: &Cube) -> bool
        ensures { result ≡ keeps_to self.inputs self.outputs product.now }
    {
        (0..32).all(|j| self.kept_at(product, j))
    }

    // Whether each of the products does.
    pub(crate) fn kept_by_all(self, products: &[Cube]) -> bool
        ensures { result ≡ all_keep self.inputs self.outputs products.now }
    {
        products.iter().all(|product| self.kept_by(product))
    }
}
