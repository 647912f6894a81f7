// Lines written into lent bytes, cell by cell.
ghost use Rattle.std.specs.Prelude.{◌≡◌, ◌*◌, ◌+◌, ◌≤◌, ◌<◌, length};
ghost use Rattle.text.specs.Writes.{put};
ghost use Rattle.text.specs.Decimals.{plain};
ghost use Rattle.record.specs.Lines.{value_of, record_of, lines, line_bytes, cell_bytes};
ghost use Rattle.record.specs.Inner.Stages.{Labels, labelled, labelled_lines};

use crate::Record;
use river::Checked;
use std::array;
use stoichiometry::{PROCESSES, SUBSTANCES};
use text::{two_columns, write_value};

// The labels of the lines of a cell: their places, from 1, in two columns each. They are the same in every cell.
type Labels = [[u8; 2]; Record::LINES];

fn line_labels() -> Labels
    ensures { Labels result }
{
    let label = |k|
        requires { k < lines }
        ensures { result ≡ plain 2 32 (k + 1) }
    { two_columns((k + 1) as u32) };
    array::from_fn(label)
}

// One line over its bytes: the columns of its cell, its label, its value and the line feed.
fn write_line(line: &mut [u8], cell: [u8; 2], label: [u8; 2], value: i64)
    requires { length line.old ≡ line_bytes }
    ensures { line.new ≡ labelled cell label value }
{
    let [cell_tens, cell_ones] = cell;
    let [tens, ones] = label;
    line[..Record::VALUE_START].copy_from_slice(&[cell_tens, cell_ones, b' ', tens, ones, b' ']);
    write_value(&mut line[Record::VALUE_START..Record::LINE_FEED], value);
    line[Record::LINE_FEED] = b'\n';
}

// A cell of a river: its amounts and its carries. Not step's or page's `Cell`: no bounds are needed, but the carries are.
// That a line's place is below their number is asked: it is a plain number, as all places are (stoichiometry `place`).
#[derive(Clone, Copy)]
struct Cell<'a> {
    amounts: &'a [i64; SUBSTANCES],
    carries: &'a [u32; PROCESSES],
}

impl Cell<'_> {
    // The value on line k, from 0.
    fn value(&self, k: usize) -> i64
        requires { k < lines }
        ensures { result ≡ value_of self.now.amounts.now self.now.carries.now 0 k }
    {
        if k < SUBSTANCES {
            return self.amounts[k];
        }
        i64::from(self.carries[k - SUBSTANCES])
    }
}

// The lines of a cell over their bytes, with the columns of its number. Here and in `write_cells` blocks are cut out by
// their place: nothing is known of a text after `as_chunks_mut`, one cut out as an array comes in an Option that is never
// None, so that a clause says how long it is; and a function for both loops that calls a closure with each block asks how
// it may be called and what it leaves, and each closure says so once more.
fn write_cell(text: &mut [u8], number: [u8; 2], cell: &Cell, labels: &Labels)
    requires room { length text.old ≡ cell_bytes }
    requires labels { Labels labels.now }
    ensures { text.new ≡ labelled_lines lines number (value_of cell.now.amounts.now cell.now.carries.now 0) }
{
    for (k, label) in labels.iter().enumerate() {
        let at = k * Record::LINE_BYTES;
        let line = &mut text[at..at + Record::LINE_BYTES];
        write_line(line, number, *label, cell.value(k));
    }
}

// The lines of a river's cells. A cell's place makes its number, and says where its lines begin.
pub(crate) fn write_cells(out: &mut [u8], checked: &Checked)
    requires { checked.now.river.now.cells * cell_bytes ≤ length out.old }
    ensures { out.new ≡ put out.old 0 (record_of checked.now.river.now) }
{
    let river = checked.river;
    let (amounts, _) = river.amounts.as_chunks::<SUBSTANCES>();
    let (carries, _) = river.carries.as_chunks::<PROCESSES>();
    let labels = line_labels();
    let pairs = amounts.iter().zip(carries).take(river.cells as usize);
    for (c, (amounts, carries)) in pairs.enumerate() {
        let at = c * Record::CELL_BYTES;
        let number = two_columns((c + 1) as u32);
        let cell = Cell { amounts, carries };
        write_cell(
            &mut out[at..at + Record::CELL_BYTES],
            number,
            &cell,
            &labels,
        );
    }
}
