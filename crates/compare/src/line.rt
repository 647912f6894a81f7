// A line of the vectors: a letter, and decimal numbers with a blank before each.
use crate::digest::{Answer, Digest};
use arrayvec::ArrayVec;

// More numbers than a line has: the figures of a set. The digits of further numbers are those of the last.
const ROOM: usize = 96;

// A line as far as it is read. Its numbers are kept without their signs, and need no heap, which would be one thing
// more to trust.
#[derive(Default, Drop)]
pub(crate) struct Line {
    pub letter: Option<u8>,
    numbers: ArrayVec<u64, ROOM>,
    // A minus stands in the line. One for all its numbers, since at most one of them, an amount, can be below zero.
    negative: bool,
}

impl Line {
    // One more byte, which is no line feed.
    pub(crate) fn take(&mut self, byte: u8) {
        match byte {
            b'0'..=b'9' => self.take_digit(byte - b'0'),
            b' ' => self.begin_number(),
            b'-' => self.negative = true,
            _ => self.letter = Some(byte),
        }
    }

    fn begin_number(&mut self) {
        let _ = self.numbers.try_push(0);
    }

    // From 19 digits on a number stays as it is. Each program has such a function, with an end of its own: a public one
    // for three would need a contract, and edits that it refuses, for one expression.
    fn take_digit(&mut self, digit: u8) {
        if let Some(number) = self.numbers.last_mut() {
            if *number < 1000000000000000000 {
                *number = *number * 10 + u64::from(digit);
            }
        }
    }

    // Numbers are counted from 0; a number that the line does not have is 0.
    fn number(&self, place: usize) -> u64 {
        self.numbers.get(place).copied().unwrap_or(0)
    }

    // A number below zero where a minus stands in the line; beyond 64 bits it is the extreme number on its side.
    pub(crate) fn signed(&self, place: usize) -> i64 {
        let size = self.number(place);
        if self.negative {
            0i64.saturating_sub_unsigned(size)
        } else {
            0i64.saturating_add_unsigned(size)
        }
    }

    // A number of 32 bits without its sign, or the largest of them.
    pub(crate) fn figure(&self, place: usize) -> u32 {
        u32::try_from(self.number(place)).unwrap_or(u32::MAX)
    }

    // A number that is a place or a length.
    pub(crate) fn place(&self, place: usize) -> usize {
        self.figure(place) as usize
    }

    // The numbers after the first.
    pub(crate) fn others(&self) -> &[u64] {
        self.numbers.get(1..).unwrap_or(&[])
    }

    // What the call is to answer: the number stands last but one, the digest last, each 0 where the line has none.
    pub(crate) fn expected(&self) -> Answer {
        let mut last = self.numbers.iter().rev().copied();
        let digest = Digest(last.next().unwrap_or(0));
        Answer {
            number: last.next().unwrap_or(0),
            digest,
        }
    }
}
