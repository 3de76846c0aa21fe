// The record of a run.
ghost use Rattle.std.specs.Prelude.{◌≡◌, ◌+◌, ◌^◌, ◌<◌, ◌≤◌, sum};
ghost use Rattle.esop.specs.Running.{all_kept, all_tried};
ghost use Rattle.cover.specs.Recording.{rows_of, noted, blank, Sensible};

// How many groups were tried, and of how many the link was kept.
#[derive(Clone, Copy, PartialEq, Eq, Debug)]
pub struct Row {
    pub tried: u32,
    pub kept: u32,
}

// A row for each of the distances 2, 3 and 4.
#[derive(Clone, Copy, PartialEq, Eq, Debug)]
pub struct Record {
    pub rows: [Row; 3],
}

// The counts of the three rows, added up.
fn total(counts: [u32; 3]) -> u64
    ensures { result ≡ sum counts }
{
    counts.iter().map(|count| u64::from(*count)).sum()
}

impl Record {
    pub(crate) fn new() -> Record
        ensures { rows_of result ≡ blank }
    {
        Record {
            rows: [Row { tried: 0, kept: 0 }; 3],
        }
    }

    // How many groups were tried at all.
    pub fn tried(&self) -> u64
        ensures { result ≡ all_tried (rows_of self.now) }
    {
        total(self.rows.map(|row| row.tried))
    }

    // How many links were kept at all.
    pub fn kept(&self) -> u64
        ensures { result ≡ all_kept (rows_of self.now) }
    {
        total(self.rows.map(|row| row.kept))
    }

    // One more group was tried, at a distance.
    pub(crate) fn note(&mut self, distance: usize, kept: bool)
        requires row { (2 ≤ distance) × (distance ≤ 4) }
        requires room { (Sensible (rows_of self.old)) × (all_tried (rows_of self.old) + 1 < 2 ^ 32) }
        ensures { rows_of self.new ≡ noted distance kept (rows_of self.old) }
    {
        let row = &mut self.rows[distance - 2];
        row.tried += 1;
        row.kept += u32::from(kept);
    }
}
