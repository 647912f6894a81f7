// The river, and what is done to it.
use crate::constants::{half_saturations, rates};
use crate::levels::{write_letters, write_levels};
use kinetics::{Conditions, Temperatures};
use probe::{Amounts, Frame, Oxygen};
use record::Record;
use river::{Letter, River};
use std::io::Result;
use stoichiometry::number::{HCO3, HPO4, NH4, NO2, NO3, O2, SS, XALG, XH, XN1, XN2, XS};
use stoichiometry::{Refusal, Set, number_of};

const CELLS: u32 = 2;

const BYTES: usize = CELLS as usize * Record::CELL_BYTES;

// O2 in water that is in balance with the air at 20 °C, µg (document 000, appendix 2: 14.65 − 0.41 T + 0.00799 T²
// − 0.0000778 T³ g/m³).
const SATURATION: u32 = 9023600;

// Thousandths per day, for 0.5 m/s and a depth of 0.67 m (document 000, appendix 2, a comment: 3.9 √U / H^1.5 per day).
const AIR_CONSTANT: u32 = 5000;

// A gram of an organic, µg; and one mole of bicarbonate, grains.
const GRAM: i64 = 1000000;

const MOLE: i64 = 312480000000000;

// What the probe reads: NH4-N, NO2-N, NO3-N and PO4-P in g/m³, oxygen in per cent of saturation.
fn frame() -> Frame {
    Frame {
        ammonium: 0.7,
        nitrite: 0.05,
        nitrate: 2.5,
        phosphate: 0.12,
        oxygen: Oxygen::Percent(87.5),
    }
}

#[derive(Drop)]
pub(crate) struct Day<'a, P: Print> {
    rt: &'a P,
    set: Set,
    river: River,
}

// Its calls stand in walk's `Walk` too, with a book: a crate for both would have to promise what they print.
impl<'a, P: Print> Day<'a, P> {
    pub(crate) fn start(rt: &'a P) -> Result<Day<'a, P>> {
        let river = River::fresh(CELLS)?;
        let published = Set::published(rates(), half_saturations());
        println!(rt; "set {}", number_of(&published))?;
        Ok(Day {
            rt,
            set: published?,
            river,
        })
    }

    // Prints the number of a call's answer. The river that it answers becomes the river; a refused call leaves it.
    fn after(
        mut self,
        call: &str,
        answer: std::result::Result<River, Refusal>,
    ) -> Result<Day<'a, P>> {
        println!(self.rt; "{call} {}", number_of(&answer))?;
        self.river = answer.unwrap_or(self.river);
        Ok(self)
    }

    fn load(self, substance: u32, number: i64) -> Result<Day<'a, P>> {
        let answer = transport::load_river(self.river, 1, substance, number);
        self.after("load", answer)
    }

    fn load_frame(self, answer: std::result::Result<Amounts, Refusal>) -> Result<Day<'a, P>> {
        println!(self.rt; "frame {}", number_of(&answer))?;
        let amounts = answer?;
        self.load(NH4, amounts.ammonium)?
            .load(NO2, amounts.nitrite)?
            .load(NO3, amounts.nitrate)?
            .load(HPO4, amounts.phosphate)?
            .load(O2, amounts.oxygen.unwrap_or(0))
    }

    // The probe's amounts, 10 g of SS, 5 g of XS, 2 mol of HCO3 and the organisms.
    pub(crate) fn loaded(self) -> Result<Day<'a, P>> {
        self.load_frame(probe::amounts_of(frame(), SATURATION))?
            .load(SS, 10 * GRAM)?
            .load(XS, 5 * GRAM)?
            .load(HCO3, 2 * MOLE)?
            .load(XH, 3 * GRAM)?
            .load(XN1, GRAM)?
            .load(XN2, GRAM)?
            .load(XALG, 2 * GRAM)
    }

    // Ten minutes at 20 °C, for which the rate constants hold: all factors are 10^6 but light's. That is a half, I /
    // (I + KI) of document 000, appendix 2, where the light I is 500 W/m², as KI is in Table 8.
    fn step(self) -> Result<Day<'a, P>> {
        let given = Conditions {
            seconds: 600,
            light: 500000,
            temperatures: Temperatures::all(1000000),
        };
        let answer = step::step_river(self.set, self.river, given);
        self.after("step", answer)
    }

    // A twentieth of each cell passes down.
    fn flow(self) -> Result<Day<'a, P>> {
        let answer = transport::flow_river(self.river, 500);
        self.after("flow", answer.map(|flowed| flowed.river))
    }

    fn air(self, cell: u32) -> Result<Day<'a, P>> {
        let answer = transport::air_river(self.river, cell, AIR_CONSTANT, 600, SATURATION);
        self.after("air", answer.map(|aired| aired.river))
    }

    fn ten_minutes(self) -> Result<Day<'a, P>> {
        self.step()?.flow()?.air(1)?.air(2)
    }

    pub(crate) fn hour(self) -> Result<Day<'a, P>> {
        let mut day = self;
        for _ in 0..6 {
            day = day.ten_minutes()?;
        }
        Ok(day)
    }

    fn letter(&self, cell: u32) -> std::result::Result<Letter, Refusal> {
        river::letter_of(self.river, cell)
    }

    // The levels and the letter of each cell, and the record.
    pub(crate) fn write(self) -> Result<()> {
        let river = self.river;
        write_levels(self.rt, &river.amounts)?;
        write_letters(self.rt, self.letter(1)?.byte(), self.letter(2)?.byte())?;
        let mut output = [0; BYTES];
        let mut work = [0; BYTES];
        let written = record::write_record(river, &mut output, &mut work);
        println!(self.rt; "record {}", number_of(&written))?;
        self.rt.write_all(&output)
    }
}
