// The digest of whole numbers: it starts at 1, and each x takes d to (d × 48,271 + x mod p) mod p with the prime
// p = 2^31 − 1, x mod p from 0 to p − 1 also for x below zero.
use river::River;
use std::fmt;
use stoichiometry::{Refusal, number_of};

const P: u64 = 2147483647;

#[derive(Clone, Copy, PartialEq, Eq)]
pub(crate) struct Digest(pub u64);

impl Digest {
    pub(crate) const START: Digest = Digest(1);

    pub(crate) fn with(self, x: i64) -> Digest {
        Digest((self.0 % P * 48271 + x.rem_euclid(P as i64) as u64) % P)
    }

    pub(crate) fn with_all<T: Copy + Into<i64>>(self, list: &[T]) -> Digest {
        let mut digest = self;
        for x in list {
            digest = digest.with((*x).into());
        }
        digest
    }

    // Cells, amounts, carries.
    pub(crate) fn of_river(river: &River) -> Digest {
        Digest::START
            .with(i64::from(river.cells))
            .with_all(&river.amounts)
            .with_all(&river.carries)
    }
}

// The number of an answer, and the digest of all that it holds besides. A number and not a `Result`, since the vectors
// give both of every answer, a refused one too; of 64 bits, since a line can say any number.
#[derive(Clone, Copy, PartialEq, Eq)]
pub(crate) struct Answer {
    pub number: u64,
    pub digest: Digest,
}

impl Answer {
    // What a call answered, and the digest of what it holds.
    pub(crate) fn of<T>(answer: &Result<T, Refusal>, digest: Digest) -> Answer {
        Answer {
            number: u64::from(number_of(answer)),
            digest,
        }
    }
}

impl fmt::Display for Answer {
    fn fmt<W: fmt::Write>(&self, f: &mut fmt::Formatter<W>) -> fmt::Result {
        let digest = self.digest.0;
        write!(f, "{} with {digest}", self.number)
    }
}
