// The probe frame: readings of nitrogen, phosphorus and oxygen become amounts in grains, or are refused.
#![tactic(auto)]

ghost use Rattle.std.specs.Prelude.{◌≡◌};
ghost use Rattle.probe.specs.Frames.{frame_answer};

use crate::frames::amounts;
use stoichiometry::{Refusal, Saturation};

mod frames;
mod readings;

// The oxygen reading: a mass, g/m³; a percentage of saturation; or missing.
#[derive(Clone, Copy)]
pub enum Oxygen {
    Mass(f32),
    Percent(f32),
    Missing,
}

// What the probe read: NH4-N, NO2-N, NO3-N and PO4-P, g/m³, and oxygen.
#[derive(Clone, Copy)]
pub struct Frame {
    pub ammonium: f32,
    pub nitrite: f32,
    pub nitrate: f32,
    pub phosphate: f32,
    pub oxygen: Oxygen,
}

impl Frame {
    // A reading is below it.
    pub const READING_END: f32 = 256.0;
}

// What a frame becomes: the amounts of NH4, NO2, NO3, HPO4 and O2, grains. None is the mark of a missing reading.
#[derive(Clone, Copy, Default)]
pub struct Amounts {
    pub ammonium: i64,
    pub nitrite: i64,
    pub nitrate: i64,
    pub phosphate: i64,
    pub oxygen: Option<i64>,
}

// The amounts of a frame; saturation in µg of O2. Refuses by the first check that holds (6, 9). The saturation is
// tested for every frame, also with a mass or a missing reading.
#[tactic(auto, unfolding(crate::specs::Frames::frame_answer, crate::specs::Frames::frame_number, numeric::specs::Check::first_holding))]
pub fn amounts_of(frame: Frame, saturation: u32) -> Result<Amounts, Refusal>
    ensures answer { result ≡ frame_answer frame saturation }
{
    if saturation > Saturation::MOST {
        return Err(Refusal::Conditions);
    }
    amounts(frame, saturation)
}
