// Levels of amounts, and what they are counted in.
ghost use Rattle.std.specs.Prelude.{◌≡◌, ◌/◌, nat_abs};
ghost use Rattle.stoichiometry.specs.Levels.{in_microgram};

use crate::Set;

// What one µg is of an amount: of an organic 1; of a dissolved substance the grains with one µg of its element, O2 by O,
// NH4, NO2 and NO3 by N, HPO4 and XP by P.
#[derive(Clone, Copy)]
pub enum Microgram {
    Organic = 1,
    Oxygen = Set::GRAINS_PER_MICROGRAM_O as isize,
    Nitrogen = Set::GRAINS_PER_MICROGRAM_N as isize,
    Phosphorus = Set::GRAINS_PER_MICROGRAM_P as isize,
}

impl Microgram {
    // How much of an amount it is.
    pub fn grains(self) -> u64
        ensures answer { result ≡ in_microgram self }
    {
        self as u64
    }

    // The level of an amount, µg, rounded down. An amount that has a level is not negative; of another its size counts.
    pub fn level(self, amount: i64) -> u64
        ensures answer { result ≡ nat_abs amount / in_microgram self }
    {
        amount.unsigned_abs() / self.grains()
    }
}
