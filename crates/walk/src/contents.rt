// What a cell holds: six totals.
use std::fmt;
use std::ops::{Add, Neg};
use totals::Totals;

const TOTALS: usize = 6;

// C, H, O, N, P and charge, grains. None of the walk comes near the limits of 64 bits.
#[derive(Clone, Copy, Default)]
pub(crate) struct Contents([i64; TOTALS]);

impl Add for Contents {
    type Output = Contents;

    fn add(self, other: Contents) -> Contents {
        let mut sum = self.0;
        for (total, more) in sum.iter_mut().zip(&other.0) {
            *total = total.saturating_add(*more);
        }
        Contents(sum)
    }
}

impl Neg for Contents {
    type Output = Contents;

    fn neg(self) -> Contents {
        Contents(self.0.map(|total| total.saturating_neg()))
    }
}

impl From<Totals> for Contents {
    fn from(t: Totals) -> Contents {
        Contents(t.figures())
    }
}

impl fmt::Display for Contents {
    fn fmt<W: fmt::Write>(&self, f: &mut fmt::Formatter<W>) -> fmt::Result {
        let [carbon, hydrogen, oxygen, nitrogen, phosphorus, charge] = self.0;
        write!(f, "{carbon} {hydrogen} {oxygen} ")?;
        write!(f, "{nitrogen} {phosphorus} {charge}")
    }
}
