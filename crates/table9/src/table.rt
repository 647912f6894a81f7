// The text of the table, and what is counted and written of it. A space or a line feed ends a cell, a line feed a row;
// any other bytes, also those of no UTF-8, can stand in a cell.
use crate::agreement::{Figure, Row};
use std::fmt;
use std::io::Result;
use stoichiometry::ENTRIES;

// How many there are, and are right.
#[derive(Clone, Copy, Default)]
struct Count {
    all: u32,
    right: u32,
}

impl Count {
    // From there on a count stays as it is.
    const MOST: u32 = 1000;

    // One more.
    fn take(&mut self, right: bool) {
        self.all = self.all.saturating_add(1).min(Count::MOST);
        self.right = self.right.saturating_add(u32::from(right)).min(Count::MOST);
    }
}

impl fmt::Display for Count {
    fn fmt<W: fmt::Write>(&self, f: &mut fmt::Formatter<W>) -> fmt::Result {
        write!(f, "{} of {}", self.right, self.all)
    }
}

// Printed figures, which are right where they agree, and blanks, where they stand for 0.
#[derive(Clone, Copy, Default)]
struct Tally {
    figures: Count,
    blanks: Count,
}

impl Tally {
    // One more cell.
    fn take(&mut self, figure: Option<Figure>, right: bool) {
        match figure {
            Some(_) => self.figures.take(right),
            None => self.blanks.take(right),
        }
    }
}

impl fmt::Display for Tally {
    fn fmt<W: fmt::Write>(&self, f: &mut fmt::Formatter<W>) -> fmt::Result {
        write!(f, "{} printed entries agree, ", self.figures)?;
        write!(f, "{} blanks are zero", self.blanks)
    }
}

// A cell without the space or the line feed that ends it. What has no such end is no cell, nor is an end alone.
fn cell_of(part: &[u8]) -> Option<&[u8]> {
    match part.split_last() {
        Some((b' ' | b'\n', cell)) if !cell.is_empty() => Some(cell),
        _ => None,
    }
}

// From nine digits on a number stays as it is, out of reach of any entry. Each program has such a function, with an end
// of its own: programs share only crates below them, and one for it would have to promise it, for one expression.
fn with_digit(number: u64, digit: u8) -> u64 {
    if number < 100000000 {
        number * 10 + u64::from(digit)
    } else {
        number
    }
}

// The figure of a cell, with a sign, digits and a point among any other bytes; none of a cell whose digits are 0, which
// is a blank.
fn figure_of(cell: &[u8]) -> Option<Figure> {
    let mut figure = Figure {
        negative: false,
        digits: 0,
        scale: 1,
    };
    let mut has_point = false;
    for byte in cell {
        match *byte {
            b'-' => figure.negative = true,
            b'.' => has_point = true,
            digit @ b'0'..=b'9' => {
                figure.digits = with_digit(figure.digits, digit - b'0');
                if has_point {
                    figure.scale = with_digit(figure.scale, 0);
                }
            }
            _ => {}
        }
    }
    (figure.digits > 0).then_some(figure)
}

// Writes a line for each row of the table and one for all of them. A line whose first cell is a blank, as that of the
// heading, is no row. The cells of a last line with no line feed are counted with all, and its row is not written.
pub(crate) fn compare(rt: &impl Print, text: &[u8], rows: &[i64; ENTRIES]) -> Result<()> {
    let mut all = Tally::default();
    for line in text.split_inclusive(|byte| *byte == b'\n') {
        let mut cells = line
            .split_inclusive(|byte| matches!(*byte, b' ' | b'\n'))
            .filter_map(cell_of);
        let Some(first) = cells.next().and_then(figure_of) else {
            continue;
        };
        let process = first.digits as usize;
        let row = Row::of(rows, process);
        let mut tally = Tally::default();
        for (substance, cell) in cells.enumerate() {
            let figure = figure_of(cell);
            let right = row.map_or(figure.is_none(), |row| row.is_right(substance, figure));
            tally.take(figure, right);
            all.take(figure, right);
        }
        if line.ends_with(b"\n") {
            println!(rt; "row {process:>2}: {tally}")?;
        }
    }
    println!(rt; "all rows: {all}")
}
