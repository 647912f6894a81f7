// A frame's readings as amounts: a mass, or oxygen's percentage of saturation, in µg rounded down, times the grains
// of a µg.
ghost use Rattle.std.specs.Prelude.{◌≡◌, ◌*◌, ◌≤◌, pos};
ghost use Rattle.stoichiometry.specs.Limits.{most_saturation};
ghost use Rattle.stoichiometry.specs.Levels.{in_microgram};
ghost use Rattle.probe.specs.Readings.{reading_fits, scaled_floor};
ghost use Rattle.probe.specs.Frames.{oxygen_fits, oxygen_amount, frame_fits, frame_amounts};
ghost use Rattle.probe.specs.Inner.Answers.{if_fits};

use crate::readings::{Scale, reading_fits, scaled_floor};
use crate::{Amounts, Frame, Oxygen};
use stoichiometry::{Microgram, Refusal};

// Masses are in g.
const MASS: Scale = Scale {
    numerator: 1000000,
    denominator: 1,
};

// Grains of a reading: its exact value times the scale, rounded down to µg, times the grains in one.
fn grains(x: f32, scale: Scale, microgram: Microgram) -> Result<i64, Refusal>
    ensures { result ≡ if_fits (reading_fits x)
        (pos (scaled_floor x scale.numerator scale.denominator * in_microgram microgram)) }
{
    if reading_fits(x) {
        Ok((scaled_floor(x, scale) * microgram.grains()) as i64)
    } else {
        Err(Refusal::Reading)
    }
}

fn oxygen_amount(oxygen: Oxygen, saturation: u32) -> Result<Option<i64>, Refusal>
    requires { saturation ≤ most_saturation }
    ensures { result ≡ if_fits (oxygen_fits oxygen) (oxygen_amount oxygen saturation) }
{
    let percent = Scale {
        numerator: saturation as u64,
        denominator: 100,
    };
    match oxygen {
        Oxygen::Mass(x) => Ok(Some(grains(x, MASS, Microgram::Oxygen)?)),
        Oxygen::Percent(x) => Ok(Some(grains(x, percent, Microgram::Oxygen)?)),
        Oxygen::Missing => Ok(None),
    }
}

// The amounts of a frame.
#[tactic(auto, unfolding(crate::specs::Frames::frame_fits))]
pub(crate) fn amounts(frame: Frame, saturation: u32) -> Result<Amounts, Refusal>
    requires { saturation ≤ most_saturation }
    ensures { result ≡ if_fits (frame_fits frame) (frame_amounts frame saturation) }
{
    Ok(Amounts {
        ammonium: grains(frame.ammonium, MASS, Microgram::Nitrogen)?,
        nitrite: grains(frame.nitrite, MASS, Microgram::Nitrogen)?,
        nitrate: grains(frame.nitrate, MASS, Microgram::Nitrogen)?,
        phosphate: grains(frame.phosphate, MASS, Microgram::Phosphorus)?,
        oxygen: oxygen_amount(frame.oxygen, saturation)?,
    })
}
