// The calls of the walk.
use crate::walk::Walk;
use std::io::Result;
use stoichiometry::Set;
use stoichiometry::number::{HCO3, HPO4, NH4, NO2, NO3, O2, SS, XALG, XH, XN1, XN2, XS};

// Grains in a gram of O2, and of N.
const OXYGEN: i64 = Set::GRAINS_PER_MICROGRAM_O * 1000000;

const NITROGEN: i64 = Set::GRAINS_PER_MICROGRAM_N * 1000000;

// A gram of an organic, µg.
const GRAM: i64 = 1000000;

// Amounts per cubic metre: 20 g of SS, 2 g of NH4-N, 0.5 g of P, the organisms, and grams of O2 and NO3-N as given.
fn filled<P: Print>(
    walk: Walk<'_, P>,
    cell: u32,
    oxygen: i64,
    nitrate: i64,
) -> Result<Walk<'_, P>> {
    walk.load(cell, SS, 20 * GRAM)?
        .load(cell, NH4, 2 * NITROGEN)?
        .load(cell, NO2, NITROGEN / 10)?
        .load(cell, NO3, nitrate)?
        .load(cell, HPO4, 5000000000000)?
        .load(cell, O2, oxygen)?
        .load(cell, HCO3, 100 * NITROGEN)?
        .load(cell, XH, 8 * GRAM)?
        .load(cell, XN1, GRAM / 2)?
        .load(cell, XN2, GRAM / 4)?
        .load(cell, XALG, 2 * GRAM)?
        .load(cell, XS, 15 * GRAM)
}

// Two cells with oxygen, then two with nitrate and hardly any oxygen.
fn four_cells<P: Print>(walk: Walk<'_, P>) -> Result<Walk<'_, P>> {
    let first = filled(walk, 1, 9 * OXYGEN, NITROGEN)?;
    let second = filled(first, 2, 7 * OXYGEN, NITROGEN)?;
    let third = filled(second, 3, OXYGEN / 5, 6 * NITROGEN)?;
    filled(third, 4, OXYGEN / 5, 6 * NITROGEN)
}

// None of these changes the river.
fn refused<P: Print>(walk: Walk<'_, P>) -> Result<Walk<'_, P>> {
    walk.load(5, SS, 1)?
        .load(0, SS, 1)?
        .load(1, 19, 1)?
        .load(1, SS, -9223372036854775807)?
        .load(1, XS, 1000 * GRAM)?
        .flow(10001)?
        .air(5, 2000, 600, 9000000)?
        .air(1, 20001, 600, 9000000)?
        .air(1, 2000, 0, 9000000)?
        .step(0, 500000, 1000000)?
        .step(3601, 500000, 1000000)?
        .step(600, 1000001, 1000000)?
        .step(600, 500000, 4000001)
}

// So much XS that a step reaches too many batches; then it is taken out again.
fn too_many<P: Print>(walk: Walk<'_, P>) -> Result<Walk<'_, P>> {
    walk.load(2, XS, 900 * GRAM)?
        .step(3600, 500000, 1000000)?
        .load(2, XS, -900 * GRAM)
}

fn ten_minutes<P: Print>(walk: Walk<'_, P>, light: u32, warmth: u32) -> Result<Walk<'_, P>> {
    walk.flow(200)?
        .air(1, 4000, 600, 9100000)?
        .air(2, 2000, 600, 9100000)?
        .step(600, light, warmth)
}

// An hour and a half, from a cold night to a bright day.
fn ninety_minutes<P: Print>(walk: Walk<'_, P>) -> Result<Walk<'_, P>> {
    let night = ten_minutes(walk, 0, 700000)?;
    let dawn = ten_minutes(night, 0, 750000)?;
    let early = ten_minutes(dawn, 100000, 800000)?;
    let morning = ten_minutes(early, 250000, 900000)?;
    let late = ten_minutes(morning, 400000, 1000000)?;
    let noon = ten_minutes(late, 600000, 1200000)?;
    let bright = ten_minutes(noon, 800000, 1400000)?;
    let warm = ten_minutes(bright, 900000, 1500000)?;
    ten_minutes(warm, 850000, 1600000)
}

pub(crate) fn all<P: Print>(walk: Walk<'_, P>) -> Result<Walk<'_, P>> {
    let began = refused(four_cells(walk)?)?;
    let warned = too_many(ten_minutes(began, 0, 600000)?)?;
    refused(ninety_minutes(warned)?)
}
