// The conditions that a step is given, and their check. How fast the processes run under them, by levels, factors,
// products and extents of one cell, stands in definitions alone, which step's code meets.
#![tactic(auto)]

ghost use Rattle.std.specs.Prelude.{◌≡◌};
ghost use Rattle.kinetics.specs.Conditions.{all_temperatures, temperatures_fit, conditions_wrong};

use numeric::in_range;
use stoichiometry::Seconds;

// Temperature factors, millionths: of XH, XN1, XN2, XALG and hydrolysis.
#[derive(Clone, Copy)]
pub struct Temperatures {
    pub xh: u32,
    pub xn1: u32,
    pub xn2: u32,
    pub algae: u32,
    pub hydrolysis: u32,
}

impl Temperatures {
    pub const MOST: u32 = 4000000;

    // Every factor the same, millionths.
    pub fn all(factor: u32) -> Temperatures
        ensures answer { result ≡ all_temperatures factor }
    {
        Temperatures {
            xh: factor,
            xn1: factor,
            xn2: factor,
            algae: factor,
            hydrolysis: factor,
        }
    }

    // Every factor is at most MOST.
    #[tactic(auto, unfolding(crate::specs::Conditions::temperatures_fit))]
    fn fit(&self) -> bool
        ensures { result ≡ temperatures_fit self.now }
    {
        [self.xh, self.xn1, self.xn2, self.algae, self.hydrolysis]
            .iter()
            .all(|x| *x <= Temperatures::MOST)
    }
}

// What a step is given besides the set and the river: seconds, light in millionths, temperature factors.
#[derive(Clone, Copy)]
pub struct Conditions {
    pub seconds: u32,
    pub light: u32,
    pub temperatures: Temperatures,
}

impl Conditions {
    pub const LIGHT_MOST: u32 = 1000000;

    // Check 6 of a step.
    #[tactic(auto, unfolding(crate::specs::Conditions::conditions_wrong))]
    pub fn are_wrong(self) -> bool
        ensures answer { result ≡ conditions_wrong self }
    {
        let seconds = in_range(Seconds::LEAST, Seconds::MOST, self.seconds);
        let light = self.light <= Conditions::LIGHT_MOST;
        !(seconds && light && self.temperatures.fit())
    }
}
