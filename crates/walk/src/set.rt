// The published set, with rate constants and half-saturations of a small river in summer; they are the walk's own.
use stoichiometry::{
    AerobicHalfSaturations, AlgaeHalfSaturations, AlgaeRates, AnoxicHalfSaturations, GrowthRates,
    HalfSaturations, RateConstants, Refusal, Set, Xn1HalfSaturations, Xn2HalfSaturations,
};

// Thousandths per day.
fn rates() -> RateConstants {
    RateConstants {
        aerobic: GrowthRates::new(2000, 200),
        anoxic: GrowthRates::new(1600, 100),
        xn1: GrowthRates::new(800, 50),
        xn2: GrowthRates::new(1100, 50),
        algae: AlgaeRates {
            ammonium: 2000,
            nitrate: 2000,
            respiration: 100,
            death: 100,
        },
        hydrolysis: 3000,
        adsorption: 1000,
        desorption: 1000,
    }
}

// µg.
fn half_saturations() -> HalfSaturations {
    HalfSaturations {
        aerobic: AerobicHalfSaturations {
            ss: 2000000,
            o2: 200000,
            nitrogen: 200000,
            phosphate: 20000,
        },
        anoxic: AnoxicHalfSaturations {
            ss: 2000000,
            o2: 200000,
            no3: 500000,
            no2: 200000,
            phosphate: 20000,
        },
        xn1: Xn1HalfSaturations {
            o2: 500000,
            nh4: 500000,
            phosphate: 20000,
        },
        xn2: Xn2HalfSaturations {
            o2: 500000,
            no2: 500000,
            phosphate: 20000,
        },
        algae: AlgaeHalfSaturations {
            o2: 200000,
            nitrogen: 100000,
            nh4: 100000,
            phosphate: 20000,
        },
    }
}

pub(crate) fn published_set() -> Result<Set, Refusal> {
    Set::published(rates(), half_saturations())
}
