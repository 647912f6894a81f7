// What comes into the river, passes along it and leaves it: load, flow and air.
#![tactic(auto)]

ghost use Rattle.std.specs.Prelude.{◌≡◌};
ghost use Rattle.transport.specs.Load.{load_answer};
ghost use Rattle.transport.specs.Flow.{flow_answer};
ghost use Rattle.transport.specs.Air.{air_answer};

use crate::air::Exchange;
use crate::flow::{Part, move_amounts};
use crate::load::sum;
use numeric::in_range;
use river::{AMOUNTS, River};
use stoichiometry::{Refusal, SUBSTANCES, place};

mod air;
mod flow;
mod load;

// The river after a flow, and what left each cell.
#[derive(Clone, Copy)]
pub struct Flowed {
    pub river: River,
    pub left: [i64; AMOUNTS],
}

impl Flowed {
    // Ten-thousandths.
    pub const PART_MOST: u32 = 10000;
}

// The river after air, and the signed amount of O2 it brought, grains.
#[derive(Clone, Copy)]
pub struct Aired {
    pub river: River,
    pub amount: i64,
}

impl Aired {
    // Thousandths per day.
    pub const CONSTANT_MOST: u32 = 20000;
}

// Changes an amount by `added`, the whole number added, of either sign; the cell and the substance are counted from 1.
// Refuses with 4, 5 or 8, in this order.
#[tactic(auto, using(river::proofs::CheckedLaws::four_holds, river::proofs::CheckedLaws::four_passed, river::proofs::CheckedLaws::five_holds, river::proofs::CheckedLaws::five_passed), unfolding(crate::specs::Load::load_answer, crate::specs::Load::load_number, numeric::specs::Check::first_holding))]
pub fn load_river(mut river: River, cell: u32, substance: u32, added: i64) -> Result<River, Refusal>
    ensures answer { result ≡ load_answer river cell substance added }
{
    river.checked()?;
    let c = river.place_of(cell)?;
    if !in_range(1, SUBSTANCES as u32, substance) {
        return Err(Refusal::Place);
    }
    let s = (substance - 1) as usize;
    // By its place in the list, here and in `air_river`: of a cell that `as_chunks_mut` lent nothing would be known after.
    let at = c * SUBSTANCES + s;
    river.amounts[at] = sum(s, river.amounts[at], added).ok_or(Refusal::Bounds)?;
    Ok(river)
}

// A flow of a part. Refuses with 4 (a wrong river) or 6 (a part above 10,000), in this order. There is no test for 8:
// the amounts after are always in their bounds (proofs/FlowLaws.antt, flow_never_eight).
#[tactic(auto, using(river::proofs::CheckedLaws::four_holds, river::proofs::CheckedLaws::four_passed), unfolding(crate::specs::Flow::flow_answer, crate::specs::Flow::flow_number, numeric::specs::Check::first_holding))]
pub fn flow_river(river: River, part: u32) -> Result<Flowed, Refusal>
    ensures answer { result ≡ flow_answer river part }
{
    // The river is tested and changed where the answer has it: it is copied once.
    let mut flowed = Flowed {
        river,
        left: [0; AMOUNTS],
    };
    flowed.river.checked()?;
    if part > Flowed::PART_MOST {
        return Err(Refusal::Conditions);
    }
    let part = Part { value: part as u64 };
    part.leave_cells(&flowed.river.amounts, &mut flowed.left);
    let cells = flowed.river.cells as usize;
    move_amounts(cells, &mut flowed.river.amounts, &flowed.left);
    Ok(flowed)
}

// Exchange of O2 between a cell, counted from 1, and the air. Answers the river with the cell's O2 changed, and the
// gain. Refuses with 4, 5 or 6, in this order. That the O2 after is in its bounds is not tested: it always is, by the
// law air_never_eight.
#[tactic(auto, using(river::proofs::CheckedLaws::four_holds, river::proofs::CheckedLaws::four_passed, river::proofs::CheckedLaws::five_holds, river::proofs::CheckedLaws::five_passed), unfolding(crate::specs::Air::air_answer, crate::specs::Air::air_number, numeric::specs::Check::first_holding))]
pub fn air_river(
    mut river: River,
    cell: u32,
    constant: u32,
    seconds: u32,
    saturation: u32,
) -> Result<Aired, Refusal>
    ensures answer { result ≡ air_answer river cell constant seconds saturation }
{
    river.checked()?;
    let at = river.place_of(cell)? * SUBSTANCES + place::O2;
    let exchange = Exchange::new(constant, seconds, saturation)?;
    let before = river.amounts[at];
    let amount = exchange.gain(before);
    river.amounts[at] = before + amount;
    Ok(Aired { river, amount })
}
