// The river of the walk with its book, and the calls on it.
use crate::book::{Book, CELLS};
use crate::contents::Contents;
use crate::set::published_set;
use kinetics::{Conditions, Temperatures};
use river::River;
use std::io::Result;
use step::step_river;
use stoichiometry::number::O2;
use stoichiometry::{Refusal, Set, number_of};
use totals::totals_of;
use transport::{air_river, flow_river, load_river};

#[derive(Drop)]
pub(crate) struct Walk<'a, P: Print> {
    rt: &'a P,
    set: Set,
    river: River,
    book: Book,
}

// A crate for both calls of this and of worked_example's `Day` would have to promise what they print, and only this one
// keeps a book.
impl<'a, P: Print> Walk<'a, P> {
    pub(crate) fn start(rt: &'a P) -> std::result::Result<Walk<'a, P>, Refusal> {
        let set = published_set()?;
        let river = River::fresh(CELLS as u32)?;
        Ok(Walk {
            rt,
            set,
            river,
            book: Book::of(set),
        })
    }

    // What follows a call: its name and the number of its answer are printed, and what it answers is taken; a refused
    // call leaves river and book.
    fn after<T: Copy, F: FnOnce(&mut Walk<'a, P>, T)>(
        mut self,
        call: &str,
        answer: std::result::Result<T, Refusal>,
        take: F,
    ) -> Result<Walk<'a, P>>
        requires { F.IsAlwaysCallable take }
    {
        println!(self.rt; "{call} {}", number_of(&answer))?;
        if let Ok(answered) = answer {
            take(&mut self, answered);
        }
        Ok(self)
    }

    pub(crate) fn load(self, cell: u32, substance: u32, number: i64) -> Result<Walk<'a, P>> {
        let answer = load_river(self.river, cell, substance, number);
        self.after("load", answer, |walk, river| {
            walk.river = river;
            walk.book.enter_number(cell, substance, number);
        })
    }

    pub(crate) fn flow(self, part: u32) -> Result<Walk<'a, P>> {
        let answer = flow_river(self.river, part);
        self.after("flow", answer, |walk, flowed| {
            walk.river = flowed.river;
            walk.book.enter_flow(flowed.left);
        })
    }

    pub(crate) fn air(
        self,
        cell: u32,
        constant: u32,
        seconds: u32,
        saturation: u32,
    ) -> Result<Walk<'a, P>> {
        let answer = air_river(self.river, cell, constant, seconds, saturation);
        self.after("air", answer, |walk, aired| {
            walk.river = aired.river;
            walk.book.enter_number(cell, O2, aired.amount);
        })
    }

    // A step at a temperature at which every temperature factor is `warmth`, millionths.
    pub(crate) fn step(self, seconds: u32, light: u32, warmth: u32) -> Result<Walk<'a, P>> {
        let given = Conditions {
            seconds,
            light,
            temperatures: Temperatures::all(warmth),
        };
        let answer = step_river(self.set, self.river, given);
        self.after("step", answer, |walk, river| walk.river = river)
    }

    // C, H, O, N, P and charge of each cell: held, and booked.
    pub(crate) fn write(self) -> Result<()> {
        let set = self.set;
        let river = self.river;
        for cell in 1..=CELLS as u32 {
            let held = Contents::from(totals_of(set, river, cell).unwrap_or_default());
            println!(self.rt; "holds {cell} {held}")?;
            let booked = self.book.cell(cell);
            println!(self.rt; "book  {cell} {booked}")?;
        }
        Ok(())
    }
}
