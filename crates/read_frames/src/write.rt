// What is written of a frame's answer.
use probe::Amounts;
use std::io;
use stoichiometry::{Refusal, number_of};

// The number, 0 for none, and the amounts; of a refused frame zeros, and no amount of O2.
pub(crate) fn write_answer(rt: &impl Print, answer: Result<Amounts, Refusal>) -> io::Result<()> {
    let number = number_of(&answer);
    let Amounts {
        ammonium,
        nitrite,
        nitrate,
        phosphate,
        oxygen,
    } = answer.unwrap_or_default();
    print!(rt; "{number} {ammonium} {nitrite} {nitrate} {phosphate} ")?;
    match oxygen {
        Some(grains) => println!(rt; "{grains}"),
        None => println!(rt; "-"),
    }
}
