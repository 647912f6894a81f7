// The carries' part of check 4: those of the river's cells are below one batch, all others are 0.
ghost use Rattle.std.specs.Prelude.{◌≡◌, ◌≤◌, ◌↔◌, IsTrue, EachIndex, slice_index};
ghost use Rattle.river.specs.Rivers.{most_carry, carries_fit};

use crate::{CARRIES, River};
use stoichiometry::PROCESSES;

// Carries are below one batch.
fn all_below_batch(carries: &[u32]) -> bool
    ensures { IsTrue result ↔ EachIndex carries.now (λ k. slice_index carries.now k ≤ most_carry) }
{
    // All are looked at, since nearly every river passes: without a way out of the loop four are tested at a time. With
    // `all` a load or an air takes 1.33 times the instructions, and a flow 1.09.
    let mut right = true;
    for carry in carries {
        right &= *carry <= River::CARRY_MOST;
    }
    right
}

// The carries of a river's cells are below one batch, all others are 0. A number of cells above 8 is taken for 8.
pub(crate) fn carries_fit(cells: u32, carries: &[u32; CARRIES]) -> bool
    ensures { result ≡ carries_fit cells carries.now }
{
    let end = CARRIES.min(cells as usize * PROCESSES);
    let (held, beyond) = carries.split_at(end);
    all_below_batch(held) && beyond.iter().all(|carry| *carry == 0)
}
