// Frames, whose readings are given by their bits; a pattern of a NaN gives a NaN.
use crate::digest::{Answer, Digest};
use crate::line::Line;
use probe::{Amounts, Frame, Oxygen};
use std::num::f32_from_bits_with_nan;

// What the reading of oxygen is.
#[derive(Clone, Copy)]
enum Form {
    Mass,
    Percent,
    Missing,
}

// As the vectors number them; any number but 0 and 1 is a missing reading.
impl From<u32> for Form {
    fn from(number: u32) -> Form {
        match number {
            0 => Form::Mass,
            1 => Form::Percent,
            _ => Form::Missing,
        }
    }
}

fn oxygen(form: Form, bits: u32) -> Oxygen {
    match form {
        Form::Mass => Oxygen::Mass(f32_from_bits_with_nan(bits)),
        Form::Percent => Oxygen::Percent(f32_from_bits_with_nan(bits)),
        Form::Missing => Oxygen::Missing,
    }
}

fn frame_of(line: &Line) -> Frame {
    Frame {
        ammonium: f32_from_bits_with_nan(line.figure(0)),
        nitrite: f32_from_bits_with_nan(line.figure(1)),
        nitrate: f32_from_bits_with_nan(line.figure(2)),
        phosphate: f32_from_bits_with_nan(line.figure(3)),
        oxygen: oxygen(Form::from(line.figure(4)), line.figure(5)),
    }
}

fn with_oxygen(digest: Digest, oxygen: Option<i64>) -> Digest {
    match oxygen {
        Some(grains) => digest.with(1).with(grains),
        None => digest.with(0).with(0),
    }
}

fn of_amounts(amounts: Amounts) -> Digest {
    let four = Digest::START
        .with(amounts.ammonium)
        .with(amounts.nitrite)
        .with(amounts.nitrate)
        .with(amounts.phosphate);
    with_oxygen(four, amounts.oxygen)
}

// A refused frame has the digest of zeros and no amount of O2.
pub(crate) fn frame(line: &Line) -> Answer {
    let answer = probe::amounts_of(frame_of(line), line.figure(6));
    Answer::of(&answer, of_amounts(answer.unwrap_or_default()))
}
