// The sets and the conditions of the steps: the published set with rate constants at which every process makes whole
// batches, and with other yields and half-saturations in each set. The values are this program's own.
use kinetics::{Conditions, Temperatures};
use std::array;
use stoichiometry::{
    AlgaeRates, GrowthRates, HalfSaturations, RateConstants, Refusal, Set, Yields,
};

pub(crate) const SETS: usize = 8;

// Thousandths per day.
fn rates() -> RateConstants {
    RateConstants {
        aerobic: GrowthRates::new(2000, 200),
        anoxic: GrowthRates::new(1600, 1000),
        xn1: GrowthRates::new(800, 50),
        xn2: GrowthRates::new(1100, 50),
        algae: AlgaeRates {
            ammonium: 2000,
            nitrate: 2000,
            respiration: 100,
            death: 2000,
        },
        hydrolysis: 3000,
        adsorption: 500,
        desorption: 400,
    }
}

// The set with other yields and half-saturations, told from another by its number.
fn set_of(published: Set, i: usize) -> Set {
    let other = (i % SETS) as u32;
    Set {
        yields: Yields {
            aerobic: 60 + other,
            nitrate: 50 + other,
            nitrite: 30 + other,
            xn1: 13 + other,
            xn2: 3 + other,
            death: 62,
            hydrolysis: 100,
        },
        half: HalfSaturations::all(200000 + other),
        ..published
    }
}

pub(crate) fn sets() -> Result<[Set; SETS], Refusal> {
    let published = Set::published(rates(), HalfSaturations::all(200000))?;
    Ok(array::from_fn(|i| set_of(published, i)))
}

// The conditions of a turn: about a minute, with about half of the light.
pub(crate) fn conditions_of(turn: u64) -> Conditions {
    let warmth = (1000000 + turn % 1000) as u32;
    Conditions {
        seconds: (50 + turn % 16) as u32,
        light: (500000 + turn % 1000) as u32,
        temperatures: Temperatures::all(warmth),
    }
}
