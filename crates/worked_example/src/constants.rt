// The rate constants and half-saturations of the example, for 20 °C. They are those of Table 8 of document 000 (the
// simplified RWQM1), and three that stand only in Table 8 of document 003 (RWQM1). Each comment has the table's symbol
// and its value there, in 1/d or g/m³; the numbers are thousandths per day and µg.
use stoichiometry::{
    AerobicHalfSaturations, AlgaeHalfSaturations, AlgaeRates, AnoxicHalfSaturations, GrowthRates,
    HalfSaturations, RateConstants, Xn1HalfSaturations, Xn2HalfSaturations,
};

pub(crate) fn rates() -> RateConstants {
    RateConstants {
        aerobic: GrowthRates {
            growth: 2000, // kgro,haer 2
            respiration: 200, // kresp,haer 0.2
        },
        anoxic: GrowthRates {
            growth: 1600, // kgro,hanox 1.6
            respiration: 100, // kresp,hanox 0.1
        },
        xn1: GrowthRates {
            growth: 800, // kgro,n1 0.8
            respiration: 50, // kresp,n1 0.05
        },
        xn2: GrowthRates {
            growth: 1100, // kgro,n2 1.1
            respiration: 50, // document 003, kresp,N2 0.05
        },
        algae: AlgaeRates {
            ammonium: 2000, // kgro,alg 2
            nitrate: 2000, // kgro,alg 2, the same for both forms of nitrogen
            respiration: 100, // kresp,alg 0.1
            death: 100, // kdeath,alg 0.1
        },
        hydrolysis: 3000, // khyd 3
        adsorption: 500, // kads 0.5; document 003 has no value
        desorption: 300, // kdes 0.3; document 003 has no value
    }
}

// 2 g of COD in SS, µg: by its fractions in Table 6 of document 000 a gram of SS is 1.790046 g of COD.
const SUBSTRATE: u32 = 1117290;

pub(crate) fn half_saturations() -> HalfSaturations {
    HalfSaturations {
        aerobic: AerobicHalfSaturations {
            ss: SUBSTRATE, // Ks,haer 2 gCOD
            o2: 200000, // Ko2,haer 0.2
            nitrogen: 200000, // Kn,haer 0.2
            phosphate: 20000, // document 003, KHPO4,H,aer 0.02
        },
        anoxic: AnoxicHalfSaturations {
            ss: SUBSTRATE, // Ks,hanox 2 gCOD
            o2: 200000, // Ko2,haer 0.2, as in the code of document 000, appendix 2
            no3: 500000, // Kno3,hanox 0.5
            no2: 200000, // Kno2,hanox 0.2
            phosphate: 20000, // Khpo4,hanox 0.02
        },
        xn1: Xn1HalfSaturations {
            o2: 500000, // Ko2,n1 0.5
            nh4: 500000, // Knh4,n1 0.5
            phosphate: 20000, // Khpo4,n1 0.02
        },
        xn2: Xn2HalfSaturations {
            o2: 500000, // Ko2,n2 0.5
            no2: 500000, // Kno2,n2 0.5
            phosphate: 20000, // Khpo4,n2 0.02
        },
        algae: AlgaeHalfSaturations {
            o2: 200000, // Ko2,alg 0.2
            nitrogen: 100000, // Kn,alg 0.1
            nh4: 100000, // Knh4,alg 0.1
            phosphate: 20000, // document 003, KHPO4,ALG 0.02
        },
    }
}
