// The amounts' part of check 4: those of the river's cells are in their bounds, all others are 0.
ghost use Rattle.std.specs.Prelude.{◌≡◌, true, false, ◌<◌, ◌≤◌, length};
ghost use Rattle.std.specs.Range.{range_inclusive_start, range_inclusive_end, range_inclusive_exhausted};
ghost use Rattle.stoichiometry.specs.Substances.{substances};
ghost use Rattle.river.specs.Rivers.{lowest_at, highest_at, amount_fits, amounts_fit};
ghost use Rattle.river.specs.Inner.Runs.{organic_at, net_at, RunFits, same_bounds, Covers};
ghost use Rattle.river.specs.Inner.Parts.{cell_fits, cell_empty};

use crate::{AMOUNTS, River};
use std::ops::RangeInclusive;
use stoichiometry::{SUBSTANCES, place};

// The substance at a place is an organic: these stand before NH4 and from XH to XI.
fn is_organic(place: usize) -> bool
    ensures { result ≡ organic_at place }
{
    place < place::NH4 || (place::XH..=place::XI).contains(&place)
}

// It is H+ or H2O.
fn is_net_change(place: usize) -> bool
    ensures { result ≡ net_at place }
{
    place == place::H_PLUS || place == place::H2O
}

// The least and the most of the substance at a place. From place 18 on, where there is none, only 0 is in bounds.
#[tactic(auto, using(crate::proofs::Bounds::lowest_none, crate::proofs::Bounds::highest_none, crate::proofs::Bounds::lowest_kind, crate::proofs::Bounds::highest_kind))]
fn bounds(place: usize) -> RangeInclusive<i64>
    ensures start { range_inclusive_start result ≡ lowest_at place }
    ensures end { range_inclusive_end result ≡ highest_at place }
    ensures exhausted { range_inclusive_exhausted result ≡ false }
{
    if place >= SUBSTANCES {
        0..=0
    } else if is_organic(place) {
        0..=River::ORGANIC_MOST
    } else if is_net_change(place) {
        -River::NET_MOST..=River::NET_MOST
    } else {
        0..=River::GRAINS_MOST
    }
}

// An amount of the substance at a place, counted from 0, is in its bounds. From place 18 on, where there is none, only
// 0 is.
#[tactic(auto, unfolding(crate::specs::Rivers::amount_fits))]
pub fn amount_fits(place: usize, amount: i64) -> bool
    ensures answer { result ≡ amount_fits place amount }
{
    bounds(place).contains(&amount)
}

// The amounts of a cell of the substances at places `first` to `end` - 1 are in their bounds, tested one by one. By their
// places, here and in `run_fits`, and not as a part of the cell: a place says which bounds hold.
fn each_amount_fits(cell: &[i64; SUBSTANCES], first: usize, end: usize) -> bool
    requires { (first ≤ end) × (end ≤ substances) }
    ensures fit { result ≡ true → RunFits cell.now first end }
    ensures other { result ≡ false → RunFits cell.now first end → ⊥ }
{
    (first..end).all(|s| amount_fits(s, cell[s]))
}

// The bits of amounts, joined. Where that is not below zero, each of them is from 0 to it.
fn joined(amounts: &[i64]) -> i64
    ensures { Covers amounts.now result }
{
    let mut bits = 0;
    for amount in amounts {
        bits |= *amount;
    }
    bits
}

// As `each_amount_fits`, by one test, for substances that have the same bounds, from 0 on: true only where each amount
// fits. Joined bits may be past the most where no amount is, so false tells nothing.
fn run_fits(cell: &[i64; SUBSTANCES], first: usize, end: usize) -> bool
    requires places { (first < end) × (end ≤ substances) }
    requires same_bounds { same_bounds first end ≡ true }
    ensures { result ≡ true → RunFits cell.now first end }
{
    amount_fits(first, joined(&cell[first..end]))
}

// True only where the amounts of a cell are in their bounds, by few tests: of SS and SI, of NH4 to HCO3, of H+, of XH to
// XI, and of XP, H2O and N2. False tells nothing. Tested one by one instead, a step takes as long, but a load, an air
// or a flow 1.05 times as long: about as many instructions, but in a load 252 branches for 163.
#[tactic(auto, unfolding(numeric::specs::Check::every, crate::specs::Rivers::lowest_at, crate::specs::Rivers::highest_at))]
fn runs_fit(cell: &[i64; SUBSTANCES]) -> bool
    ensures { result ≡ true → RunFits cell.now 0 substances }
{
    run_fits(cell, place::SS, place::NH4)
        && run_fits(cell, place::NH4, place::H_PLUS)
        && each_amount_fits(cell, place::H_PLUS, place::XH)
        && run_fits(cell, place::XH, place::XP)
        && each_amount_fits(cell, place::XP, SUBSTANCES)
}

// The amounts of a cell are in their bounds. Nearly every cell passes the few tests; where one does not, the amounts are
// tested one by one.
fn cell_fits(cell: &[i64; SUBSTANCES]) -> bool
    ensures { result ≡ cell_fits cell.now }
{
    runs_fit(cell) || each_amount_fits(cell, 0, SUBSTANCES)
}

// The amounts of a cell are zeros.
fn cell_empty(cell: &[i64; SUBSTANCES]) -> bool
    ensures { result ≡ cell_empty cell.now }
{
    *cell == [0; SUBSTANCES]
}

// The amounts of a river's cells are in their bounds, all others are 0. A number of cells above 8 is taken for 8.
pub fn amounts_fit(cells: u32, amounts: &[i64; AMOUNTS]) -> bool
    ensures answer { result ≡ amounts_fit cells amounts.now }
{
    let n = cells as usize;
    let (all, _) = amounts.as_chunks::<SUBSTANCES>();
    all.iter().take(n).all(cell_fits) && all.iter().skip(n).all(cell_empty)
}
