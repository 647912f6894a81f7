// Air: exchange of O2 between one cell and the air.
ghost use Rattle.std.specs.Prelude.{◌≡◌, true, false, pos, IfOk, IfErr};
ghost use Rattle.stoichiometry.specs.declared.refusals.Refusal.TheVariants.{Conditions};
ghost use Rattle.stoichiometry.specs.Substances.{o2, place};
ghost use Rattle.river.specs.Rivers.{amount_fits};
ghost use Rattle.transport.specs.Air.{exchanged, gain, air_figure_wrong};

use crate::Aired;
use numeric::in_range;
use stoichiometry::{Microgram, Refusal, Saturation, Seconds, Set};

// The air constant is in thousandths per day, the part of a difference that is exchanged in billionths.
const BILLIONTHS_PER_THOUSANDTH: u64 = 1000000;

const BILLIONTHS: i64 = 1000000000;

// What an exchange is given: the constant in thousandths per day, how long it lasts, and the O2 of saturated water, µg.
#[derive(Clone, Copy)]
pub(crate) struct Exchange {
    constant: u32,
    seconds: u32,
    saturation: u32,
    ghost in_bounds: { air_figure_wrong constant seconds saturation ≡ false },
}

impl Exchange {
    // Check 6 of air as a call: the exchange of these figures, known to be in their bounds. Refuses with 6.
    #[tactic(auto, unfolding(crate::specs::Air::air_figure_wrong))]
    pub(crate) fn new(constant: u32, seconds: u32, saturation: u32) -> Result<Exchange, Refusal>
        ensures figures { IfOk result (λ exchange. (exchange.constant ≡ constant) × (exchange.seconds ≡ seconds)
            × (exchange.saturation ≡ saturation)) }
        ensures refused { IfErr result (λ refusal. (refusal ≡ Conditions)
            × (air_figure_wrong constant seconds saturation ≡ true)) }
    {
        if constant <= Aired::CONSTANT_MOST
            && in_range(Seconds::LEAST, Seconds::MOST, seconds)
            && saturation <= Saturation::MOST
        {
            Ok(Exchange {
                constant,
                seconds,
                saturation,
            })
        } else {
            Err(Refusal::Conditions)
        }
    }

    // The customer's g: the part of a difference that is exchanged, in billionths.
    fn part(&self) -> i64
        ensures { result ≡ pos (exchanged self.now.constant self.now.seconds) }
    {
        (self.constant as u64 * BILLIONTHS_PER_THOUSANDTH * self.seconds as u64
            / Seconds::PER_DAY) as i64
    }

    // The O2 that air brings to an amount of O2, grains, signed.
    pub(crate) fn gain(&self, amount: i64) -> i64
        requires { amount_fits (place o2) amount ≡ true }
        ensures { result ≡ gain self.now.constant self.now.seconds self.now.saturation amount }
    {
        let level = Microgram::Oxygen.level(amount) as i64;
        let difference = self.saturation as i64 - level;
        difference * self.part() / BILLIONTHS * Set::GRAINS_PER_MICROGRAM_O
    }
}
