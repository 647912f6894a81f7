// One reading: comparisons refuse it, and the bits give the mantissa and the exponent of its exact value.
ghost use Rattle.std.specs.Prelude.{◌≡◌, true, ◌≤◌};
ghost use Rattle.stoichiometry.specs.Limits.{most_saturation};
ghost use Rattle.probe.specs.Readings.{reading_fits, scaled_floor};

use crate::Frame;

// The f32 format: 23 bits of digits, then 8 of the exponent's field, then the sign. A normal number is
// (DIGITS + digits) × 2 ^ (field − FIELD_OF_ONE_DIGIT); with field 0 it is below 2 ^ −126.
const DIGITS: u32 = 8388608;

const SIGN: u32 = 2147483648;

const FIELD_OF_ONE_DIGIT: u32 = 150;

// What a reading is multiplied by, a fraction: µg for a reading of one.
#[derive(Clone, Copy)]
pub(crate) struct Scale {
    pub numerator: u64,
    pub denominator: u64,
    pub ghost in_range: { (numerator ≤ most_saturation) × (1 ≤ denominator) },
}

// A reading is a number, not below zero, and below 256. A NaN fails both comparisons; −0 passes.
pub(crate) fn reading_fits(x: f32) -> bool
    ensures { result ≡ reading_fits x }
{
    x >= 0.0 && x < Frame::READING_END
}

// The exact value of x times the scale, rounded down. Readings of field 0 give less than one.
pub(crate) fn scaled_floor(x: f32, scale: Scale) -> u64
    requires { reading_fits x ≡ true }
    ensures { result ≡ scaled_floor x scale.numerator scale.denominator }
{
    let bits = f32::to_bits(x);
    let digits = bits % DIGITS;
    let field = bits % SIGN / DIGITS;
    if field == 0 {
        return 0;
    }
    let scaled = u64::from(DIGITS + digits) * scale.numerator / scale.denominator;
    let shift = FIELD_OF_ONE_DIGIT - field;
    scaled.unbounded_shr(shift)
}
