// The counts of the calls and of equal answers, and the first difference.
use crate::digest::Answer;
use crate::kinds::Call;
use std::fmt;

// The numbers that a call answers: 0, and those of the refusals.
pub(crate) const NUMBERS: usize = 13;

// Calls of one kind by expected number, and equal answers. No count reaches the limit.
#[derive(Clone, Copy, Default)]
pub(crate) struct Row {
    pub counts: [u64; NUMBERS],
    pub equal: u64,
}

impl Row {
    fn count(&mut self, expected: Answer, got: Answer) {
        if let Some(count) = self.counts.get_mut(expected.number as usize) {
            *count = count.saturating_add(1);
        }
        if got == expected {
            self.equal = self.equal.saturating_add(1);
        }
    }

    pub(crate) fn calls(&self) -> u64 {
        self.counts
            .iter()
            .fold(0u64, |sum, count| sum.saturating_add(*count))
    }
}

// Where an answer differed.
#[derive(Clone, Copy)]
pub(crate) struct Difference {
    line: u64,
    letter: u8,
    expected: Answer,
    got: Answer,
}

impl fmt::Display for Difference {
    fn fmt<W: fmt::Write>(&self, f: &mut fmt::Formatter<W>) -> fmt::Result {
        let line = self.line;
        let kind = char::from(self.letter);
        write!(f, "line {line}, kind {kind}, expected {}", self.expected)?;
        write!(f, ", got {}", self.got)
    }
}

// The rows by the calls' places in the table, the lines so far, and the first difference.
#[derive(Default, Drop)]
pub(crate) struct Tally {
    pub rows: [Row; Call::COUNT],
    lines: u64,
    pub first: Option<Difference>,
}

impl Tally {
    pub(crate) fn count_line(&mut self) {
        self.lines = self.lines.saturating_add(1);
    }

    pub(crate) fn count_call(&mut self, call: Call, letter: u8, expected: Answer, got: Answer) {
        self.rows[call as usize].count(expected, got);
        if got != expected && self.first.is_none() {
            self.first = Some(Difference {
                line: self.lines,
                letter,
                expected,
                got,
            });
        }
    }
}
