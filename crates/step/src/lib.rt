// One step of all cells.
#![tactic(auto)]

ghost use Rattle.std.specs.Prelude.{◌≡◌};
ghost use Rattle.step.specs.Steps.{step_answer};

use crate::rates::Rates;
use kinetics::Conditions;
use river::{AMOUNTS, CARRIES, River, amounts_fit};
use rows::{batches_of, rows_of};
use stoichiometry::{Refusal, Set};

mod apply;
mod cell;
mod factors;
mod levels;
mod products;
mod rates;
mod split;
mod stepping;

// The river after one step of all cells together. Refuses with the number of the first check that holds: 1 to 4, 6, 7
// or 8.
pub fn step_river(set: Set, river: River, conditions: Conditions) -> Result<River, Refusal>
    ensures answer { result ≡ step_answer set river conditions }
{
    let rows = rows_of(set)?;
    let checked = river.checked()?;
    if conditions.are_wrong() {
        return Err(Refusal::Conditions);
    }
    let rates = Rates {
        set,
        conditions,
        entries: &rows.entries,
        sizes: batches_of(set),
    };
    let mut after = River {
        cells: river.cells,
        amounts: [0; AMOUNTS],
        carries: [0; CARRIES],
    };
    rates.step_cells(&checked, &mut after)?;
    if !amounts_fit(river.cells, &after.amounts) {
        return Err(Refusal::Bounds);
    }
    Ok(after)
}
