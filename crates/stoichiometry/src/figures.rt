// The published set.
ghost use Rattle.std.specs.Prelude.{◌≡◌};
ghost use Rattle.stoichiometry.specs.Parameters.{published_set};

use crate::{Fractions, HalfSaturations, InertFractions, Organics, RateConstants, Set, Yields};

pub(crate) fn published_set(rates: RateConstants, half: HalfSaturations) -> Set
    ensures { result ≡ published_set rates half }
{
    Set {
        fractions: Organics {
            ss: Fractions::from([570, 80, 280, 60, 10]),
            si: Fractions::from([610, 70, 280, 30, 10]),
            xh: Fractions::from([520, 80, 250, 120, 30]),
            xn1: Fractions::from([520, 80, 250, 120, 30]),
            xn2: Fractions::from([520, 80, 250, 120, 30]),
            xalg: Fractions::from([360, 70, 500, 60, 10]),
            xs: Fractions::from([570, 80, 280, 60, 10]),
            xi: Fractions::from([610, 70, 280, 30, 10]),
        },
        yields: Yields {
            aerobic: 60,
            nitrate: 50,
            nitrite: 30,
            xn1: 13,
            xn2: 3,
            death: 62,
            hydrolysis: 100,
        },
        inert: InertFractions {
            bacteria: 20,
            algae: 20,
        },
        rates,
        half,
    }
}
