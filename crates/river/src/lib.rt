// The river: a train of 1 to 8 cells, by value; a fresh one, check 4, and the letter of a cell.
#![tactic(auto)]

ghost use Rattle.std.specs.Prelude.{◌≡◌, cond};
ghost use Rattle.stoichiometry.specs.Refusals.{answer_of};
ghost use Rattle.river.specs.Rivers.{cells_fit, river_fits, zero_river, fresh_answer};
ghost use Rattle.river.specs.Checked.{river_of, checked_answer, place_answer};
ghost use Rattle.river.specs.Cells.{byte, letter_by, letter_answer};

use crate::carries::carries_fit;
use numeric::in_range;
use stoichiometry::{Microgram, PROCESSES, Refusal, SUBSTANCES, place};

mod amounts;
mod carries;
mod checked;

pub use crate::amounts::{amount_fits, amounts_fit};
pub use crate::checked::Checked;

// The amounts and the carries of all cells.
pub const AMOUNTS: usize = River::CELLS_MOST * SUBSTANCES;

pub const CARRIES: usize = River::CELLS_MOST * PROCESSES;

// A train of cells. Amount s of cell c, both counted from 0, stands at c * SUBSTANCES + s: organics in µg, the others
// in grains, per cubic metre. Carry p of cell c stands at c * PROCESSES + p: millionths of a batch. A count beside arrays
// of a fixed size, since there is no heap.
#[derive(Clone, Copy)]
pub struct River {
    pub cells: u32,
    pub amounts: [i64; AMOUNTS],
    pub carries: [u32; CARRIES],
}

impl River {
    pub const CELLS_MOST: usize = 8;

    // The bounds of amounts: organics from 0 in µg, other substances from 0 in grains, the net changes H+ and H2O
    // either way in grains. Carries are below one batch, in millionths.
    pub const ORGANIC_MOST: i64 = 1000000000;

    pub const GRAINS_MOST: i64 = 10000000000000000;

    pub const NET_MOST: i64 = 1000000000000000000;

    pub const CARRY_MOST: u32 = 999999;

    // The most whole batches that a process reaches in a cell in one step.
    pub const BATCHES_MOST: i64 = 100000;

    // A river of n cells, all zeros. Refuses with 4 where n is not 1 to 8.
    #[tactic(auto, unfolding(crate::specs::Rivers::fresh_answer, numeric::specs::Check::first_holding))]
    pub fn fresh(n: u32) -> Result<River, Refusal>
        ensures answer { result ≡ fresh_answer n }
    {
        let mut river = River {
            cells: 0,
            amounts: [0; AMOUNTS],
            carries: [0; CARRIES],
        };
        river.take_cells(n)?;
        Ok(river)
    }

    // Makes a river of no cells one of n, all zeros. Refuses with 4 where n is not 1 to 8, and leaves it without cells.
    #[tactic(auto, unfolding(crate::specs::Rivers::cells_fit))]
    fn take_cells(&mut self, n: u32) -> Result<(), Refusal>
        requires { self.old ≡ zero_river 0 }
        ensures answer { result ≡ answer_of (cond (cells_fit n) 0 4) tt }
        ensures cells { self.new ≡ zero_river (cond (cells_fit n) n 0) }
    {
        if in_range(1, River::CELLS_MOST as u32, n) {
            self.cells = n;
            Ok(())
        } else {
            Err(Refusal::River)
        }
    }

    // Check 4 passes the river: it is of 1 to 8 cells, its amounts and carries are in their bounds, and beyond its last
    // cell are zeros. A test and no `Result`: reading a record refuses with 11 where it fails, the other calls with 4.
    #[tactic(auto, unfolding(crate::specs::Rivers::cells_fit))]
    pub fn fits(&self) -> bool
        ensures answer { result ≡ river_fits self.now.cells self.now.amounts self.now.carries }
    {
        in_range(1, River::CELLS_MOST as u32, self.cells)
            && amounts_fit(self.cells, &self.amounts)
            && carries_fit(self.cells, &self.carries)
    }

    // Check 4 as a call: the river, known to pass it. Refuses with 4.
    #[tactic(auto, unfolding(crate::specs::Checked::checked_answer, crate::specs::Rivers::river_wrong, numeric::specs::Check::first_holding))]
    pub fn checked(&self) -> Result<Checked<'_>, Refusal>
        ensures answer { river_of result ≡ checked_answer self.now }
    {
        if !self.fits() {
            return Err(Refusal::River);
        }
        Ok(Checked { river: self })
    }

    // Check 5 as a call: the place, from 0, of the cell of this number, 1 to the number of cells. Refuses with 5.
    #[tactic(auto, unfolding(crate::specs::Checked::place_answer, numeric::specs::Check::first_holding))]
    pub fn place_of(&self, cell: u32) -> Result<usize, Refusal>
        ensures answer { result ≡ place_answer self.now cell }
    {
        if !in_range(1, self.cells, cell) {
            return Err(Refusal::Place);
        }
        Ok((cell - 1) as usize)
    }
}

// The letter of a cell, by its byte of ASCII.
#[derive(Clone, Copy, Debug, PartialEq, Eq)]
pub enum Letter {
    LowOxygen = b'L' as isize,
    HighAmmonium = b'N' as isize,
    Neither = b'-' as isize,
}

impl Letter {
    // Below the first level O2 is low, above the second NH4 is high, µg.
    pub const OXYGEN_LEAST: u64 = 2000000;

    pub const AMMONIUM_MOST: u64 = 1000000;

    // The byte of ASCII. By that name: `u8::from(letter)` would not say that it is one.
    pub fn byte(self) -> u8
        ensures answer { result ≡ byte self }
    {
        self as u8
    }
}

// The letter by the levels of O2 and NH4, µg, for a caller that has them.
#[tactic(auto, unfolding(crate::specs::Cells::letter_by))]
pub fn letter_by(oxygen: u64, ammonium: u64) -> Letter
    ensures answer { result ≡ letter_by oxygen ammonium }
{
    if oxygen < Letter::OXYGEN_LEAST {
        Letter::LowOxygen
    } else if Letter::AMMONIUM_MOST < ammonium {
        Letter::HighAmmonium
    } else {
        Letter::Neither
    }
}

// The letter of a cell, 1 to the number of cells: L where the level of O2 is below 2,000,000 µg, N where that of NH4 is
// above 1,000,000 µg, else a hyphen. Refuses with 4 and 5.
#[tactic(auto, using(crate::proofs::CheckedLaws::four_holds, crate::proofs::CheckedLaws::four_passed, crate::proofs::CheckedLaws::five_holds, crate::proofs::CheckedLaws::five_passed), unfolding(crate::specs::Cells::letter_answer, crate::specs::Cells::letter_number, crate::specs::Cells::letter_of, stoichiometry::specs::Levels::level_of, numeric::specs::Check::first_holding))]
pub fn letter_of(river: River, cell: u32) -> Result<Letter, Refusal>
    ensures answer { result ≡ letter_answer river cell }
{
    river.checked()?;
    let c = river.place_of(cell)?;
    let (cells, _) = river.amounts.as_chunks::<SUBSTANCES>();
    let oxygen = Microgram::Oxygen.level(cells[c][place::O2]);
    let ammonium = Microgram::Nitrogen.level(cells[c][place::NH4]);
    Ok(letter_by(oxygen, ammonium))
}
