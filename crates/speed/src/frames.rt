// The frames of the turns: their oxygen is a mass, a percentage and missing in turn.
use crate::checksum::Checksum;
use probe::{Amounts, Frame, Oxygen};
use stoichiometry::Refusal;

pub(crate) const READINGS: usize = 16;

// Readings as a probe gives them, g/m³.
pub(crate) fn readings() -> [f32; READINGS] {
    [
        0.7, 0.5, 3.2, 0.1, 9.15, 1.0, 0.25, 12.5, 0.002, 0.3, 14.6, 255.0, 100.0, 50.0, 87.5, 2.2,
    ]
}

fn oxygen_of(reading: f32, turn: u64) -> Oxygen {
    match turn % 3 {
        0 => Oxygen::Mass(reading),
        1 => Oxygen::Percent(reading),
        _ => Oxygen::Missing,
    }
}

pub(crate) fn frame_of(readings: &[f32; READINGS], turn: u64) -> Frame {
    let k = (turn % 12) as usize;
    Frame {
        ammonium: readings[k],
        nitrite: readings[k + 1],
        nitrate: readings[k + 2],
        phosphate: readings[k + 3],
        oxygen: oxygen_of(readings[k + 4], turn),
    }
}

fn with_oxygen(before: Checksum, oxygen: Option<i64>) -> Checksum {
    match oxygen {
        Some(grains) => before.with_signed(grains),
        None => before.with(1),
    }
}

// The checksum with everything of an answer; of a refused frame zeros, and no amount of O2.
pub(crate) fn with_frame(before: Checksum, answer: &Result<Amounts, Refusal>) -> Checksum {
    let amounts = answer.unwrap_or_default();
    let with_four = before
        .with_number_of(answer)
        .with_signed(amounts.ammonium)
        .with_signed(amounts.nitrite)
        .with_signed(amounts.nitrate)
        .with_signed(amounts.phosphate);
    with_oxygen(with_four, amounts.oxygen)
}
