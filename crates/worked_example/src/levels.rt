// What two cells hold, by names: the level of each substance that has one, in g/m³.
use river::AMOUNTS;
use std::fmt;
use std::io::Result;
use stoichiometry::Microgram::{Nitrogen, Organic, Oxygen, Phosphorus};
use stoichiometry::{Microgram, SUBSTANCES, place};

// A level in µg, in ten columns as grams with three decimals, rounded down.
#[derive(Clone, Copy)]
struct Level(u64);

impl fmt::Display for Level {
    fn fmt<W: fmt::Write>(&self, f: &mut fmt::Formatter<W>) -> fmt::Result {
        write!(f, "{:>6}.{:03}", self.0 / 1000000, self.0 / 1000 % 1000)
    }
}

// The level at a place of a cell's amounts; 0 where there is no such place. The list below has place and unit of each.
fn level_at(cell: &[i64; SUBSTANCES], at: usize, microgram: Microgram) -> Level {
    Level(microgram.level(cell.get(at).copied().unwrap_or(0)))
}

// A line for each substance that has a level: its name, and its level in each cell. The nitrogen is in g of N, the
// phosphate in g of P.
pub(crate) fn write_levels(rt: &impl Print, amounts: &[i64; AMOUNTS]) -> Result<()> {
    println!(rt; "g/m3      cell 1    cell 2")?;
    let (cells, _) = amounts.as_chunks::<SUBSTANCES>();
    let substances = [
        ("SS", place::SS, Organic),
        ("SI", place::SI, Organic),
        ("NH4-N", place::NH4, Nitrogen),
        ("NO2-N", place::NO2, Nitrogen),
        ("NO3-N", place::NO3, Nitrogen),
        ("PO4-P", place::HPO4, Phosphorus),
        ("O2", place::O2, Oxygen),
        ("XH", place::XH, Organic),
        ("XN1", place::XN1, Organic),
        ("XN2", place::XN2, Organic),
        ("XALG", place::XALG, Organic),
        ("XS", place::XS, Organic),
        ("XI", place::XI, Organic),
        ("XP", place::XP, Phosphorus),
    ];
    for (name, at, microgram) in substances {
        let in_first = level_at(&cells[0], at, microgram);
        let in_second = level_at(&cells[1], at, microgram);
        println!(rt; "{name:<6}{in_first}{in_second}")?;
    }
    Ok(())
}

// The line of the letters, below the levels.
pub(crate) fn write_letters(rt: &impl Print, first: u8, second: u8) -> Result<()> {
    println!(rt; "letter{:>10}{:>10}", char::from(first), char::from(second))
}
