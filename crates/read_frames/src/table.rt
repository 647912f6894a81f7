// The table of frames. A reading is given by its bits; a pattern of a NaN gives a NaN.
use crate::write::write_answer;
use probe::{Frame, Oxygen};
use std::io::Result;
use std::num::f32_from_bits_with_nan;

// Converts a frame, given by the bits of NH4-N, NO2-N, NO3-N and PO4-P, and writes its answer.
fn show(rt: &impl Print, bits: [u32; 4], oxygen: Oxygen, saturation: u32) -> Result<()> {
    let frame = Frame {
        ammonium: f32_from_bits_with_nan(bits[0]),
        nitrite: f32_from_bits_with_nan(bits[1]),
        nitrate: f32_from_bits_with_nan(bits[2]),
        phosphate: f32_from_bits_with_nan(bits[3]),
        oxygen,
    };
    write_answer(rt, probe::amounts_of(frame, saturation))
}

fn mass(bits: u32) -> Oxygen {
    Oxygen::Mass(f32_from_bits_with_nan(bits))
}

fn percent(bits: u32) -> Oxygen {
    Oxygen::Percent(f32_from_bits_with_nan(bits))
}

// A row of the table: the bits of the four readings, the reading of oxygen, and the saturation.
type Row = ([u32; 4], Oxygen, u32);

fn show_all(rt: &impl Print, rows: &[Row]) -> Result<()> {
    for (bits, oxygen, saturation) in rows {
        show(rt, *bits, *oxygen, *saturation)?;
    }
    Ok(())
}

// Masses as a probe reads them, and smaller than a µg.
pub(crate) fn masses(rt: &impl Print) -> Result<()> {
    let rows = [
        (
            [0x3f333333, 0x3f000000, 0x40490fdb, 0x3dcccccd],
            mass(0x41126666),
            10000000,
        ),
        ([0x00000000; 4], mass(0x00000000), 0),
        (
            [0x3f800000, 0x3e800000, 0x41480000, 0x3b03126f],
            mass(0x358637bd),
            9000000,
        ),
        (
            [0x3e99999a, 0x3a83126f, 0x38d1b717, 0x3727c5ac],
            mass(0x4169999a),
            20000000,
        ),
        (
            [0x437f8000, 0x42c80000, 0x42480000, 0x41200000],
            mass(0x437f0000),
            14600000,
        ),
        (
            [0x400ccccd, 0x3d8f5c29, 0x40dccccd, 0x3ea8f5c3],
            Oxygen::Missing,
            11300000,
        ),
        (
            [0x33d6bf95, 0x358637b4, 0x358637bd, 0x358637be],
            mass(0x358637bd),
            10000000,
        ),
    ];
    show_all(rt, &rows)
}

// Percentages of saturation.
pub(crate) fn percentages(rt: &impl Print) -> Result<()> {
    let bits = [0x3f333333, 0x00000000, 0x00000000, 0x00000000];
    let rows = [
        (bits, percent(0x42c80000), 10000000),
        (bits, percent(0x42af0000), 10000000),
        (bits, percent(0x42053333), 10000000),
        (bits, percent(0x3dcccccd), 9999999),
        (bits, percent(0x437fffff), 20000000),
        (bits, percent(0x42c80000), 0),
        (bits, percent(0x42f08000), 14600001),
        (bits, percent(0x3727c5ac), 20000000),
        (bits, percent(0x36a7c5ac), 20000000),
        (bits, percent(0x36a7c5ad), 20000000),
    ];
    show_all(rt, &rows)
}

// Any bits below those of 256, and any readings.
pub(crate) fn any_frames(rt: &impl Print) -> Result<()> {
    let rows = [
        (
            [0x135ab1d8, 0x21420695, 0x0cfe7e32, 0x29e91e05],
            mass(0x43121991),
            5683385,
        ),
        (
            [0x03741500, 0x34acc9aa, 0x34101096, 0x0999de0e],
            percent(0x41d2a022),
            10708532,
        ),
        (
            [0x3cb951b6, 0x3985f6ce, 0x34bbd20d, 0x1ab520a9],
            Oxygen::Missing,
            11259820,
        ),
        (
            [0x2a1430e6, 0x36b41e7c, 0x0bde63a6, 0x4248e55f],
            mass(0x434d6c98),
            16512591,
        ),
        (
            [0x33d4d82e, 0x0a6d7a33, 0x1a69750b, 0x1f0ee7da],
            percent(0x410f3246),
            3171731,
        ),
        (
            [0x0ab85e31, 0x185cfb04, 0x2070294c, 0x2448d30d],
            Oxygen::Missing,
            8616203,
        ),
        (
            [0x409cd0c3, 0x4061fa60, 0x3f33499a, 0x41a9635a],
            mass(0x435b12e0),
            7370754,
        ),
        (
            [0x4189be54, 0x3fd71683, 0x41bfc6c9, 0x41943dd0],
            percent(0x428e7e37),
            11269519,
        ),
        (
            [0x418fefa1, 0x4156bf1b, 0x4092e48c, 0x419947ed],
            Oxygen::Missing,
            14525747,
        ),
        (
            [0x409675ff, 0x4142c5a9, 0x41a99d46, 0x406862f6],
            mass(0x41ff6245),
            19473700,
        ),
        (
            [0x414db42f, 0x40d71000, 0x41d9a213, 0x3fc709ef],
            percent(0x424543ae),
            5782286,
        ),
        (
            [0x41ee3b7c, 0x41c979cf, 0x405c79f4, 0x41d43616],
            Oxygen::Missing,
            10580609,
        ),
    ];
    show_all(rt, &rows)
}

// −0, subnormals, the least normal numbers, the largest number below 256, neighbours of a µg.
pub(crate) fn edges(rt: &impl Print) -> Result<()> {
    let rows = [
        ([0x80000000; 4], mass(0x80000000), 20000000),
        (
            [0x00000001, 0x007fffff, 0x00800000, 0x00800001],
            mass(0x00000001),
            20000000,
        ),
        ([0x437fffff; 4], mass(0x437fffff), 20000000),
        ([0x437fffff; 4], percent(0x437fffff), 20000000),
        (
            [0x358637bd, 0x358637bc, 0x358637be, 0x3f7fffff],
            percent(0x80000000),
            20000000,
        ),
        (
            [0x2b000000, 0x2a800000, 0x33800000, 0x3f800001],
            percent(0x00000001),
            20000000,
        ),
        ([0x00000000; 4], Oxygen::Missing, 20000000),
    ];
    show_all(rt, &rows)
}

// A saturation above 20,000,000, also with bad readings; then 256, infinities, NaNs and numbers below zero, in each
// place.
pub(crate) fn refused_frames(rt: &impl Print) -> Result<()> {
    let rows = [
        ([0x00000000; 4], Oxygen::Missing, 20000001),
        ([0x00000000; 4], mass(0x00000000), 20000001),
        (
            [0x7fc00000, 0x00000000, 0x00000000, 0x00000000],
            percent(0x00000000),
            4294967295,
        ),
        (
            [0x80000001, 0x00000000, 0x00000000, 0x00000000],
            Oxygen::Missing,
            20000000,
        ),
        (
            [0x00000000, 0x43800000, 0x00000000, 0x00000000],
            Oxygen::Missing,
            20000000,
        ),
        (
            [0x00000000, 0x00000000, 0x7fc00000, 0x00000000],
            Oxygen::Missing,
            20000000,
        ),
        (
            [0x00000000, 0x00000000, 0x00000000, 0x7f800000],
            Oxygen::Missing,
            20000000,
        ),
        (
            [0xff800000, 0x00000000, 0x00000000, 0x00000000],
            mass(0x00000000),
            0,
        ),
        ([0x00000000; 4], mass(0x43800000), 10000000),
        ([0x00000000; 4], mass(0x80000001), 10000000),
        ([0x00000000; 4], percent(0x43800000), 10000000),
        ([0x00000000; 4], percent(0xbf800000), 10000000),
        ([0x00000000; 4], mass(0xffffffff), 10000000),
        ([0x00000000; 4], percent(0x7f800001), 10000000),
        (
            [0x4f000000, 0x00000000, 0x00000000, 0x00000000],
            Oxygen::Missing,
            10000000,
        ),
    ];
    show_all(rt, &rows)
}
