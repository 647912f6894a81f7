// What a step does once its set, its river and its conditions have passed their checks.
ghost use Rattle.std.specs.Prelude.{◌≡◌, OnOk, Ok, Err, if◌then◌else◌};
ghost use Rattle.numeric.specs.Table.{tab};
ghost use Rattle.stoichiometry.specs.declared.refusals.Refusal.TheVariants.{Batches};
ghost use Rattle.stoichiometry.specs.Rows.{processes};
ghost use Rattle.stoichiometry.specs.Substances.{substances};
ghost use Rattle.step.specs.Steps.{batches_wrong, new_amount, new_carry, stepped_amounts, stepped_carries};
ghost use Rattle.step.specs.Inner.Rating.{amount_in, carry_in};
ghost use Rattle.step.specs.Inner.Stepping.{CarriesFit, batches_few};

use crate::apply::Terms;
use crate::cell::Cell;
use crate::rates::Rates;
use crate::split::{batches_fit, split};
use river::{Checked, River};
use stoichiometry::{PROCESSES, Refusal, SUBSTANCES};

impl Rates<'_> {
    // Writes the carries after of one cell, which has these carries, and then, if it passes check 7, its amounts after.
    fn step_cell(
        &self,
        cell: &Cell,
        carries: &[u32; PROCESSES],
        amounts_after: &mut [i64; SUBSTANCES],
        carries_after: &mut [u32; PROCESSES],
    ) -> Result<(), Refusal>
        requires { CarriesFit carries.now }
        ensures batches { result ≡ (if batches_few self.now.set self.now.conditions (amount_in cell.now.amounts.now)
            (carry_in carries.now) then Ok tt else Err Batches) }
        ensures amounts { OnOk result (amounts_after.new ≡ tab substances
            (new_amount self.now.set self.now.conditions (amount_in cell.now.amounts.now) (carry_in carries.now))) }
        ensures carries { OnOk result (carries_after.new ≡ tab processes
            (new_carry self.now.set self.now.conditions (amount_in cell.now.amounts.now) (carry_in carries.now))) }
    {
        let extents = self.cell_extents(cell);
        let mut whole = [0; PROCESSES];
        split(&extents, carries, &mut whole, carries_after);
        if !batches_fit(&whole) {
            return Err(Refusal::Batches);
        }
        let terms = Terms {
            amounts: cell.amounts,
            batches: &whole,
            entries: self.entries,
        };
        *amounts_after = terms.amounts_after();
        Ok(())
    }

    // Writes the amounts and the carries after, cell by cell, with zeros beyond the river's last. Where a cell does not
    // pass check 7 it ends there: 7 in any cell comes before 8 in any. What each cell has after is written into arrays of
    // cells and copied at the end: of a part of the river's lists that is lent by `as_chunks_mut` nothing would be known
    // after. The river is lent: where both lists are answered a step takes 1.06 times as many instructions.
    pub(crate) fn step_cells(&self, checked: &Checked, after: &mut River) -> Result<(), Refusal>
        ensures batches { result ≡
            (if batches_wrong self.now.set self.now.conditions checked.now.river.now then Err Batches else Ok tt) }
        ensures cells_kept { OnOk result (after.new.cells ≡ after.old.cells) }
        ensures amounts_after { OnOk result
            (after.new.amounts ≡ stepped_amounts self.now.set self.now.conditions checked.now.river.now) }
        ensures carries_after { OnOk result
            (after.new.carries ≡ stepped_carries self.now.set self.now.conditions checked.now.river.now) }
    {
        let river = checked.river;
        let (cells, _) = river.amounts.as_chunks::<SUBSTANCES>();
        let (carries, _) = river.carries.as_chunks::<PROCESSES>();
        let mut amounts_after = [[0; SUBSTANCES]; River::CELLS_MOST];
        let mut carries_after = [[0; PROCESSES]; River::CELLS_MOST];
        let pairs = cells.iter().zip(carries).take(river.cells as usize);
        for (c, (amounts, carries)) in pairs.enumerate() {
            let cell = Cell { amounts };
            self.step_cell(&cell, carries, &mut amounts_after[c], &mut carries_after[c])?;
        }
        after.amounts.copy_from_slice(amounts_after.as_flattened());
        after.carries.copy_from_slice(carries_after.as_flattened());
        Ok(())
    }
}
