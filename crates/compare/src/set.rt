// A set of its 83 figures, in the order of the fields, and the digest of a set.
use crate::digest::{Answer, Digest};
use crate::line::Line;
use std::array;
use stoichiometry::{
    Fractions, HalfSaturations, InertFractions, Organics, RateConstants, Set, Yields,
};

const FIGURES: usize = 83;

#[derive(Clone, Copy, Default)]
pub(crate) struct Figures {
    list: [u32; FIGURES],
}

impl Figures {
    // The figures that a line gives.
    pub(crate) fn of(line: &Line) -> Figures {
        Figures {
            list: array::from_fn(|i| line.figure(i)),
        }
    }

    // N figures from a place on; one that is not there is 0. By place: where one part is cut off after the other, each
    // comes in an Option that is never None.
    fn part<const N: usize>(&self, first: usize) -> [u32; N] {
        array::from_fn(|i| self.list.get(first.saturating_add(i)).copied().unwrap_or(0))
    }

    fn organics(&self) -> Organics {
        Organics::from(array::from_fn(|i| Fractions::from(self.part(i * 5))))
    }

    fn rates(&self) -> RateConstants {
        RateConstants::from(self.part(49))
    }

    fn half_saturations(&self) -> HalfSaturations {
        HalfSaturations::from(self.part(64))
    }

    // A place that is not there changes nothing.
    pub(crate) fn set(&mut self, place: usize, value: u32) {
        if let Some(figure) = self.list.get_mut(place) {
            *figure = value;
        }
    }
}

impl From<&Figures> for Set {
    fn from(figures: &Figures) -> Set {
        Set {
            fractions: figures.organics(),
            yields: Yields::from(figures.part(40)),
            inert: InertFractions::from(figures.part(47)),
            rates: figures.rates(),
            half: figures.half_saturations(),
        }
    }
}

// The published set with the rate constants and half-saturations of the figures; where it is refused, a set of zeros.
pub(crate) fn published(figures: &Figures) -> Answer {
    let answer = Set::published(figures.rates(), figures.half_saturations());
    Answer::of(
        &answer,
        of_set(answer.unwrap_or(Set::from(&Figures::default()))),
    )
}

fn of_set(set: Set) -> Digest {
    set.fractions
        .each()
        .iter()
        .fold(Digest::START, |digest, f| digest.with_all(&f.figures()))
        .with_all(&set.yields.figures())
        .with_all(&set.inert.figures())
        .with_all(&set.rates.figures())
        .with_all(&set.half.figures())
}
