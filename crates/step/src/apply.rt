// New amounts: old amounts and the batches of every process times its entries.
ghost use Rattle.std.specs.Prelude.{◌≡◌, ◌<◌};
ghost use Rattle.numeric.specs.Table.{tab};
ghost use Rattle.stoichiometry.specs.Rows.{processes};
ghost use Rattle.stoichiometry.specs.Substances.{substances};
ghost use Rattle.rows.specs.Changing.{may_change, Digits};
ghost use Rattle.step.specs.Inner.Rating.{CellFits};
ghost use Rattle.step.specs.Inner.Stepping.{BatchesFit, EntriesFit};
ghost use Rattle.step.specs.Inner.Stepping.{added_from, new_from};

use rows::Changing;
use stoichiometry::place::{
    H_PLUS, H2O, HCO3, HPO4, N2, NH4, NO2, NO3, O2, SI, SS, XALG, XH, XI, XN1, XN2, XP, XS,
};
use stoichiometry::{ENTRIES, PROCESSES, SUBSTANCES};

// What the amounts after of a cell are made of: its amounts before, its whole batches, and the rows.
#[derive(Clone, Copy)]
pub(crate) struct Terms<'a> {
    pub amounts: &'a [i64; SUBSTANCES],
    pub batches: &'a [i64; PROCESSES],
    pub entries: &'a [i64; ENTRIES],
    ghost amounts_fit: { CellFits amounts.now },
    ghost batches_fit: { BatchesFit batches.now },
    ghost entries_fit: { EntriesFit entries.now },
}

impl Terms<'_> {
    // What the process at place p adds to the substance at place s; one that does not change it has no entry for it. A
    // test beside the places: an `Option` of the place would be made at each call and taken apart here.
    fn added_by(&self, s: usize, p: usize, changes: bool) -> i64
        requires { (s < substances) × (p < processes) × (changes ≡ may_change p s) }
        ensures { result ≡ added_from self.now.batches.now self.now.entries.now s p }
    {
        if changes {
            self.batches[p] * self.entries[p * SUBSTANCES + s]
        } else {
            0
        }
    }

    // The amount after of the substance at place s. The binary digits of `changing` say which processes change the
    // substance, process 1 last. The place p is that of a digit, of a batch and in the entries: no list has all three.
    fn amount_after(&self, s: usize, changing: u32) -> i64
        requires { (s < substances) × Digits changing s }
        ensures { result ≡ new_from self.now.amounts.now self.now.batches.now self.now.entries.now s }
    {
        let mut total = self.amounts[s];
        for p in 0..PROCESSES {
            total += self.added_by(s, p, changing >> p & 1 == 1);
        }
        total
    }

    // The amounts after, SS to N2: each is written out, so that each sum has its terms alone.
    #[tactic(auto, using(crate::proofs::Unchanged::told), unfolding(numeric::specs::Check::every, rows::specs::Changing::digit, rows::specs::Changing::may_change, rows::specs::Changing::stands_at, rows::specs::Changing::changed_by, stoichiometry::specs::Rows::process_at, stoichiometry::specs::Rows::processes_of))]
    pub(crate) fn amounts_after(&self) -> [i64; SUBSTANCES]
        ensures { result ≡ tab substances
            (new_from self.now.amounts.now self.now.batches.now self.now.entries.now) }
    {
        [
            self.amount_after(SS, Changing::SS),
            self.amount_after(SI, Changing::SI),
            self.amount_after(NH4, Changing::NH4),
            self.amount_after(NO2, Changing::NO2),
            self.amount_after(NO3, Changing::NO3),
            self.amount_after(HPO4, Changing::HPO4),
            self.amount_after(O2, Changing::O2),
            self.amount_after(HCO3, Changing::HCO3),
            self.amount_after(H_PLUS, Changing::H_PLUS),
            self.amount_after(XH, Changing::XH),
            self.amount_after(XN1, Changing::XN1),
            self.amount_after(XN2, Changing::XN2),
            self.amount_after(XALG, Changing::XALG),
            self.amount_after(XS, Changing::XS),
            self.amount_after(XI, Changing::XI),
            self.amount_after(XP, Changing::XP),
            self.amount_after(H2O, Changing::H2O),
            self.amount_after(N2, Changing::N2),
        ]
    }
}
