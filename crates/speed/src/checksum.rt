// The checksum of answers. What it takes of an answer depends on the turn, so that no part of it can be left out.
ghost use Rattle.std.specs.Prelude.{◌<◌, length};

use river::{AMOUNTS, CARRIES, River};
use stoichiometry::{Refusal, SUBSTANCES, number_of};

// The checksum so far, and the number of the turn that adds to it.
#[derive(Clone, Copy)]
pub(crate) struct Checksum {
    sum: u64,
    pub turn: u64,
}

impl Checksum {
    // The checksum of so many turns. They take what is prepared for them in turn, by its place: by `zip` and `cycle` a
    // turn that makes no call takes 1.36 of the time, which is in the time of every kind.
    pub(crate) fn of_turns<P, F: FnMut(&P, Checksum) -> Checksum>(
        turns: u64,
        prepared: &[P],
        mut add: F,
    ) -> u64
        requires prepared { 0 < length prepared.now }
        requires callable { F.IsAlwaysCallable add }
    {
        let count = prepared.len() as u64;
        let mut sum = 0;
        for turn in 0..turns {
            let before = Checksum { sum, turn };
            sum = add(&prepared[(turn % count) as usize], before).sum;
        }
        sum
    }

    // With one number more. The sum is turned by a bit first, so that the order of the numbers counts.
    pub(crate) fn with(self, number: u64) -> Checksum {
        Checksum {
            sum: self.sum.rotate_left(1).wrapping_add(number),
            ..self
        }
    }

    // With one signed number more, modulo 2^64.
    pub(crate) fn with_signed(self, x: i64) -> Checksum {
        self.with(x.cast_unsigned())
    }

    // With the number of an answer.
    pub(crate) fn with_number_of<T>(self, answer: &Result<T, Refusal>) -> Checksum {
        self.with(u64::from(number_of(answer)))
    }

    // With the number that one part of each block of a list gives; a block has `parts` parts.
    fn with_each<T: Copy, F: Fn(T) -> u64>(self, list: &[T], parts: usize, number: F) -> Checksum
        requires parts { 0 < parts }
        requires callable { F.IsAlwaysCallable number }
    {
        let k = (self.turn % parts as u64) as usize;
        list.chunks_exact(parts)
            .fold(self, |sum, block| sum.with(number(block[k])))
    }

    // With the amounts of one substance in all cells.
    pub(crate) fn with_amounts(self, amounts: &[i64; AMOUNTS]) -> Checksum {
        self.with_each(amounts, SUBSTANCES, i64::cast_unsigned)
    }

    // With one carry.
    fn with_carry(self, carries: &[u32; CARRIES]) -> Checksum {
        let k = (self.turn % CARRIES as u64) as usize;
        self.with(u64::from(carries[k]))
    }

    // With the amounts of one substance and one carry of a river.
    pub(crate) fn with_river(self, river: &River) -> Checksum {
        self.with_amounts(&river.amounts).with_carry(&river.carries)
    }

    // With one byte of each cell, of a text that has `width` bytes for each.
    pub(crate) fn with_text(self, text: &[u8], width: usize) -> Checksum
        requires { 0 < width }
    {
        self.with_each(text, width, u64::from)
    }
}
