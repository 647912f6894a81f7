// An entry of a row against the figure that Table 9 prints for it. Processes are counted from 1, substances by place.
ghost use Rattle.std.specs.Prelude.{◌≡◌, ◌≤◌};
ghost use Rattle.table9.specs.Agreement.{InReach, agrees_with};

use stoichiometry::{ENTRIES, SUBSTANCES, place};

// A printed figure: its digits as one number, and 10 to the number of its decimals. The sign stands beside, here and
// below: `agrees_with` asks for equal signs, then for near sizes. Signed numbers, an i64 and an i128 (an amount reaches
// 1.8 * 10^19), would be taken apart again for that; by their difference alone a figure of 0 agrees with either sign.
#[derive(Clone, Copy)]
pub(crate) struct Figure {
    pub negative: bool,
    pub digits: u64,
    pub scale: u64,
}

// Chemical oxygen demand of one µg of an organic, in the unit of `weight`: 32 times the grains of O2 that oxidise it,
// from its fractions of C, H, P, O, N in Table 6. XS is as SS, XI as SI, XN1 and XN2 as XH. Each is written
// out, since a constant calls no function, and a function in their place would have to promise its numbers.
const SS: u64 = 32 * (26040 * 570 + 78120 * 80 + 12600 * 10 - 9765 * 280 - 16740 * 60);

const SI: u64 = 32 * (26040 * 610 + 78120 * 70 + 12600 * 10 - 9765 * 280 - 16740 * 30);

const XH: u64 = 32 * (26040 * 520 + 78120 * 80 + 12600 * 30 - 9765 * 250 - 16740 * 120);

const XALG: u64 = 32 * (26040 * 360 + 78120 * 70 + 12600 * 10 - 9765 * 500 - 16740 * 60);

// What a grain, or a µg of an organic, is in the unit that its column has in Table 9. A grain is 1/312,480 nmol, so in
// 312,480,000ths of a µg it is the mass of a mole of what is counted: N, P, O2, C, H, N2. H2O is in moles.
fn weight(substance: usize) -> u64
    ensures { result ≤ 600000000 }
{
    match substance {
        place::SS | place::XS => SS,
        place::SI | place::XI => SI,
        place::NH4 | place::NO2 | place::NO3 => 14,
        place::HPO4 | place::XP => 31,
        place::O2 => 32,
        place::HCO3 => 12,
        place::XH | place::XN1 | place::XN2 => XH,
        place::XALG => XALG,
        place::N2 => 28,
        _ => 1,
    }
}

// The substance of which a row is per gram.
fn reference(process: usize) -> usize {
    match process {
        1..=6 => place::XH,
        7 | 8 => place::XN1,
        9 | 10 => place::XN2,
        11..=14 => place::XALG,
        15 => place::XS,
        _ => place::XP,
    }
}

// No entry of the published set is larger.
const ENTRY_MOST: u64 = 30000000000;

// An entry without its sign, in the unit of `weight`; none where it is out of reach.
fn amount(entry: i64, substance: usize) -> Option<u64> {
    let size = entry.unsigned_abs();
    (size <= ENTRY_MOST).then(|| size * weight(substance))
}

// What a row has per gram of its reference: amount / unit, below zero where `negative` holds.
#[derive(Clone, Copy)]
struct Coefficient {
    negative: bool,
    amount: u64,
    unit: u64,
}

impl Coefficient {
    // Whether a figure agrees with it.
    #[tactic(auto, unfolding(crate::specs::Agreement::agrees_with))]
    fn agrees(self, figure: Figure) -> bool
        requires { InReach self.amount self.unit figure }
        ensures { result ≡ agrees_with self.negative self.amount self.unit figure }
    {
        if self.negative != figure.negative {
            return false;
        }
        (self.amount * figure.scale).abs_diff(figure.digits * self.unit) <= self.unit / 2
    }

    // The same of any numbers; out of reach none agree.
    fn agrees_in_reach(self, figure: Figure) -> bool {
        let small = figure.digits <= 5000000 && figure.scale <= 1000000;
        let within = self.amount <= 10000000000000 && 1 <= self.unit && self.unit <= 3000000000000;
        small && within && self.agrees(figure)
    }
}

// The row of a process, and the place of the substance of which it is per gram.
#[derive(Clone, Copy)]
pub(crate) struct Row<'a> {
    entries: &'a [i64],
    reference: usize,
}

impl<'a> Row<'a> {
    // None where there is no such process.
    pub(crate) fn of(rows: &'a [i64; ENTRIES], process: usize) -> Option<Row<'a>> {
        let entries = rows.chunks_exact(SUBSTANCES).nth(process.checked_sub(1)?)?;
        Some(Row {
            entries,
            reference: reference(process),
        })
    }

    fn entry(self, substance: usize) -> Option<i64> {
        self.entries.get(substance).copied()
    }

    fn coefficient(self, substance: usize) -> Option<Coefficient> {
        let entry = self.entry(substance)?;
        Some(Coefficient {
            negative: entry < 0,
            amount: amount(entry, substance)?,
            unit: amount(self.entry(self.reference)?, self.reference)?,
        })
    }

    // Whether a figure agrees with the entry of a substance, or a blank's entry is 0. Where there is no such entry, a
    // blank is right and a figure is not.
    pub(crate) fn is_right(self, substance: usize, figure: Option<Figure>) -> bool {
        match figure {
            Some(figure) => self
                .coefficient(substance)
                .is_some_and(|coefficient| coefficient.agrees_in_reach(figure)),
            None => self.entry(substance).unwrap_or(0) == 0,
        }
    }
}
