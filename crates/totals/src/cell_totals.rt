// The six totals of one cell: what one of each substance holds, times its amount, added up.
ghost use Rattle.std.specs.Prelude.{◌≡◌};
ghost use Rattle.stoichiometry.specs.Substances.{formula, organic_composition};
ghost use Rattle.totals.specs.Totals.{totals_in};
ghost use Rattle.totals.specs.Inner.TotalsCode.{as_totals, compositions, with_amount};
ghost use Rattle.totals.specs.Inner.TotalsCode.{Addable, AddableAmounts};

use crate::Totals;
use stoichiometry::{Fractions, SUBSTANCES, Set};

impl Totals {
    // What one µg of an organic with these fractions holds.
    fn of_organic(f: Fractions) -> Totals
        ensures { result ≡ as_totals (organic_composition f) }
    {
        Totals {
            carbon: Fractions::CARBON_GRAINS * f.carbon as i64,
            hydrogen: Fractions::HYDROGEN_GRAINS * f.hydrogen as i64,
            oxygen: Fractions::OXYGEN_GRAINS * f.oxygen as i64,
            nitrogen: Fractions::NITROGEN_GRAINS * f.nitrogen as i64,
            phosphorus: Fractions::PHOSPHORUS_GRAINS * f.phosphorus as i64,
            charge: 0,
        }
    }

    // What one grain of a substance with this formula holds: atoms of C, H, O, N, P, and the charge.
    fn of_formula(c: u32, h: u32, o: u32, n: u32, p: u32, charge: i64) -> Totals
        ensures { result ≡ as_totals (formula c h o n p charge) }
    {
        Totals {
            carbon: c as i64,
            hydrogen: h as i64,
            oxygen: o as i64,
            nitrogen: n as i64,
            phosphorus: p as i64,
            charge,
        }
    }

    // These totals and those of an amount of a substance of which one holds `one`.
    fn with(self, amount: i64, one: Totals) -> Totals
        requires { Addable self amount one }
        ensures { result ≡ with_amount self amount one }
    {
        Totals {
            carbon: self.carbon + amount * one.carbon,
            hydrogen: self.hydrogen + amount * one.hydrogen,
            oxygen: self.oxygen + amount * one.oxygen,
            nitrogen: self.nitrogen + amount * one.nitrogen,
            phosphorus: self.phosphorus + amount * one.phosphorus,
            charge: self.charge + amount * one.charge,
        }
    }

    // What one of each substance holds. XP is adsorbed HPO4.
    #[tactic(auto, unfolding(crate::specs::Inner::TotalsCode::compositions))]
    fn of_each(set: Set) -> [Totals; SUBSTANCES]
        ensures { result ≡ compositions set }
    {
        let f = set.fractions;
        let nh4 = Totals::of_formula(0, 4, 0, 1, 0, 1);
        let no2 = Totals::of_formula(0, 0, 2, 1, 0, -1);
        let no3 = Totals::of_formula(0, 0, 3, 1, 0, -1);
        let hpo4 = Totals::of_formula(0, 1, 4, 0, 1, -2);
        let o2 = Totals::of_formula(0, 0, 2, 0, 0, 0);
        let hco3 = Totals::of_formula(1, 1, 3, 0, 0, -1);
        let h_plus = Totals::of_formula(0, 1, 0, 0, 0, 1);
        let xp = Totals::of_formula(0, 1, 4, 0, 1, -2);
        let h2o = Totals::of_formula(0, 2, 1, 0, 0, 0);
        let n2 = Totals::of_formula(0, 0, 0, 2, 0, 0);
        [
            Totals::of_organic(f.ss),
            Totals::of_organic(f.si),
            nh4,
            no2,
            no3,
            hpo4,
            o2,
            hco3,
            h_plus,
            Totals::of_organic(f.xh),
            Totals::of_organic(f.xn1),
            Totals::of_organic(f.xn2),
            Totals::of_organic(f.xalg),
            Totals::of_organic(f.xs),
            Totals::of_organic(f.xi),
            xp,
            h2o,
            n2,
        ]
    }

    // The totals of the cell of these amounts.
    pub(crate) fn of_cell(set: Set, amounts: &[i64; SUBSTANCES]) -> Totals
        requires { AddableAmounts set amounts.now }
        ensures { result ≡ totals_in set amounts.now 0 }
    {
        let ones = Totals::of_each(set);
        let mut totals = Totals::default();
        for (amount, one) in amounts.iter().zip(&ones) {
            totals = totals.with(*amount, *one);
        }
        totals
    }
}
