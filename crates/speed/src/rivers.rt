// The rivers that the calls are made on: eight cells with all organisms at work, of which no step below runs dry.
use river::River;
use std::array;
use stoichiometry::{SUBSTANCES, place};

pub(crate) const RIVERS: usize = 8;

// A number that tells place k of river r from other places and rivers.
fn number_of(r: usize, k: usize) -> u32 {
    (r % RIVERS * 1000 + k % 1000) as u32
}

// The amount at place k, and a carry, by that number.
fn amount(k: usize, number: u32) -> i64 {
    let number = i64::from(number);
    match k % SUBSTANCES {
        place::SS | place::SI | place::XH..=place::XI => 50000000 + number * 1000,
        place::H_PLUS | place::H2O => -1000000007 * number,
        _ => 100000000000000 + number * 1000003,
    }
}

fn carry(number: u32) -> u32 {
    (u64::from(number) * 7919 % 1000000) as u32
}

fn river_of(r: usize) -> River {
    River {
        cells: River::CELLS_MOST as u32,
        amounts: array::from_fn(|k| amount(k, number_of(r, k))),
        carries: array::from_fn(|k| carry(number_of(r, k))),
    }
}

pub(crate) fn rivers() -> [River; RIVERS] {
    array::from_fn(river_of)
}

// A load for a turn, of either sign.
pub(crate) fn load_of(turn: u64) -> i64 {
    let size = (1 + turn % 1000) as i64;
    if turn % 2 == 0 { size } else { -size }
}
