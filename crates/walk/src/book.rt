// The book: what each cell holds by the calls and their answers alone. What a list of amounts or a number of a
// substance contains is asked of a river that holds that and nothing else.
use crate::contents::Contents;
use river::{AMOUNTS, CARRIES, River};
use stoichiometry::Set;
use totals::totals_of;

// The cells of the walk.
pub(crate) const CELLS: usize = 4;

// The set, and what each cell holds. Cells are counted from 1. Nothing is booked of a cell that is not there: what the
// last one passes down goes away.
#[derive(Clone, Copy)]
pub(crate) struct Book {
    set: Set,
    cells: [Contents; CELLS],
}

impl Book {
    // Nothing is booked at first.
    pub(crate) fn of(set: Set) -> Book {
        Book {
            set,
            cells: Default::default(),
        }
    }

    // What stands for a cell in a list of amounts.
    fn contents(&self, amounts: [i64; AMOUNTS], cell: u32) -> Contents {
        let held = River {
            cells: River::CELLS_MOST as u32,
            amounts,
            carries: [0; CARRIES],
        };
        Contents::from(totals_of(self.set, held, cell).unwrap_or_default())
    }

    // What a number, not negative, of a substance contains; the substance is counted from 1.
    fn contents_of(&self, substance: u32, number: i64) -> Contents {
        let mut amounts = [0; AMOUNTS];
        if let Some(place) = (substance as usize).checked_sub(1)
            && let Some(amount) = amounts.get_mut(place)
        {
            *amount = number;
        }
        self.contents(amounts, 1)
    }

    pub(crate) fn cell(&self, cell: u32) -> Contents {
        let place = (cell as usize).checked_sub(1);
        let held = place.and_then(|place| self.cells.get(place).copied());
        held.unwrap_or_default()
    }

    fn enter(&mut self, cell: u32, what: Contents) {
        if let Some(place) = (cell as usize).checked_sub(1)
            && let Some(held) = self.cells.get_mut(place)
        {
            *held = *held + what;
        }
    }

    // A number, of either sign, of a substance that came to a cell: three numbers, as the call of load has them, so that
    // its caller hands on what it has.
    pub(crate) fn enter_number(&mut self, cell: u32, substance: u32, number: i64) {
        if number < 0 {
            let lost = self.contents_of(substance, number.saturating_neg());
            self.enter(cell, -lost);
        } else {
            let came = self.contents_of(substance, number);
            self.enter(cell, came);
        }
    }

    // What a flow lists: what left a cell went to the next.
    pub(crate) fn enter_flow(&mut self, left: [i64; AMOUNTS]) {
        for cell in 1..=CELLS as u32 {
            let what = self.contents(left, cell);
            self.enter(cell, -what);
            self.enter(cell + 1, what);
        }
    }
}
