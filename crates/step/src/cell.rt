// One cell: its amounts, and its levels.
ghost use Rattle.std.specs.Prelude.{◌≡◌, ◌/◌, ◌<◌, nat_abs};
ghost use Rattle.stoichiometry.specs.Substances.{substances};
ghost use Rattle.stoichiometry.specs.Levels.{in_microgram};
ghost use Rattle.kinetics.specs.Rates.{levels_of};
ghost use Rattle.step.specs.Inner.Rating.{CellFits, amount_in, level_list, kept_levels};

use crate::levels::CellLevels;
use stoichiometry::{Microgram, SUBSTANCES, place};

// A cell of a river, whose amounts are in their bounds. page and record have a `Cell` of their own: page's knows the bounds
// of six amounts only, record's has carries and no bounds. As one type in river it would be public with its methods, and
// `level` here and `value` there ask for a place, which no public call does.
#[derive(Clone, Copy)]
pub(crate) struct Cell<'a> {
    pub amounts: &'a [i64; SUBSTANCES],
    ghost fits: { CellFits amounts.now },
}

impl Cell<'_> {
    // The level of the substance at place s, µg.
    fn level(&self, s: usize, microgram: Microgram) -> u64
        requires { s < substances }
        ensures { result ≡ nat_abs (amount_in self.now.amounts.now s) / in_microgram microgram }
    {
        microgram.level(self.amounts[s])
    }

    pub(crate) fn levels(&self) -> CellLevels
        ensures { level_list result ≡ kept_levels (levels_of (amount_in self.now.amounts.now)) }
    {
        CellLevels {
            ss: self.level(place::SS, Microgram::Organic),
            nh4: self.level(place::NH4, Microgram::Nitrogen),
            no2: self.level(place::NO2, Microgram::Nitrogen),
            no3: self.level(place::NO3, Microgram::Nitrogen),
            hpo4: self.level(place::HPO4, Microgram::Phosphorus),
            o2: self.level(place::O2, Microgram::Oxygen),
            xh: self.level(place::XH, Microgram::Organic),
            xn1: self.level(place::XN1, Microgram::Organic),
            xn2: self.level(place::XN2, Microgram::Organic),
            xalg: self.level(place::XALG, Microgram::Organic),
            xs: self.level(place::XS, Microgram::Organic),
            xp: self.level(place::XP, Microgram::Phosphorus),
        }
    }
}
