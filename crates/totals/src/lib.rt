// The six totals of one cell: C, H, O, N, P and charge, under a set.
#![tactic(auto)]

ghost use Rattle.std.specs.Prelude.{◌≡◌};
ghost use Rattle.totals.specs.Totals.{total_list, totals_answer};

use river::River;
use rows::check;
use stoichiometry::{Refusal, SUBSTANCES, Set};

mod cell_totals;

// The six totals of one cell, grains.
#[derive(Clone, Copy, Default)]
pub struct Totals {
    pub carbon: i64,
    pub hydrogen: i64,
    pub oxygen: i64,
    pub nitrogen: i64,
    pub phosphorus: i64,
    pub charge: i64,
}

impl Totals {
    // The totals in the order of the fields.
    pub fn figures(&self) -> [i64; 6]
        ensures answer { result ≡ total_list self.now }
    {
        [
            self.carbon,
            self.hydrogen,
            self.oxygen,
            self.nitrogen,
            self.phosphorus,
            self.charge,
        ]
    }
}

// The six totals of a cell, 1 to the number of cells, under a set. Refuses with 1, 2, 3, 4 and 5.
pub fn totals_of(set: Set, river: River, cell: u32) -> Result<Totals, Refusal>
    ensures answer { result ≡ totals_answer set river cell }
{
    check(set)?;
    river.checked()?;
    let c = river.place_of(cell)?;
    let (cells, _) = river.amounts.as_chunks::<SUBSTANCES>();
    Ok(Totals::of_cell(set, &cells[c]))
}
