// The levels of one cell.
ghost use Rattle.std.specs.Prelude.{◌≤◌};
ghost use Rattle.stoichiometry.specs.Levels.{most_level};

// Levels of one cell, µg, which fit the machine.
#[derive(Clone, Copy)]
pub(crate) struct CellLevels {
    pub ss: u64,
    pub nh4: u64,
    pub no2: u64,
    pub no3: u64,
    pub hpo4: u64,
    pub o2: u64,
    pub xh: u64,
    pub xn1: u64,
    pub xn2: u64,
    pub xalg: u64,
    pub xs: u64,
    pub xp: u64,
    ghost fit: { (ss ≤ most_level) × (nh4 ≤ most_level) × (no2 ≤ most_level) × (no3 ≤ most_level) × (hpo4 ≤ most_level)
        × (o2 ≤ most_level) × (xh ≤ most_level) × (xn1 ≤ most_level) × (xn2 ≤ most_level) × (xalg ≤ most_level)
        × (xs ≤ most_level) × (xp ≤ most_level) },
}
