// Lines read strictly from a text, cell by cell.
ghost use Rattle.std.specs.Prelude.{◌≡◌, ◌+◌, ◌≤◌, ◌<◌, is_some, OnSome};
ghost use Rattle.stoichiometry.specs.Rows.{processes};
ghost use Rattle.stoichiometry.specs.Substances.{substances};
ghost use Rattle.river.specs.Rivers.{cells_fit, zero_river, most_cells};
ghost use Rattle.text.specs.Blocks.{part};
ghost use Rattle.record.specs.Lines.{front, lines, cell_bytes};
ghost use Rattle.record_reading.specs.Reading.{same_bytes, line_value, lowest_on, highest_on};
ghost use Rattle.record_reading.specs.Reading.{cells_in, lines_right, amounts_in, carries_in};
ghost use Rattle.record_reading.specs.Inner.Stages.{cell_found, amounts_found, carries_found, cells_of};

use record::Record;
use river::River;
use stoichiometry::{PROCESSES, SUBSTANCES};
use text::two_columns;
use text_reading::read_decimal;

// What stands before the value of the line is its cell and its place. As tuples: slices and arrays are compared by a call
// of the library, and a record is then read in a seventh more.
fn front_right(line: &[u8; Record::LINE_BYTES], cell: u32, place: u32) -> bool
    ensures { result ≡ same_bytes (part 0 6 line.now) (front cell place) }
{
    let [c0, c1] = two_columns(cell);
    let [p0, p1] = two_columns(place);
    (line[0], line[1], line[2], line[3], line[4], line[5]) == (c0, c1, b' ', p0, p1, b' ')
}

// The limits of the value on line k, counted from 0: any amount, or a carry.
#[tactic(auto, unfolding(crate::specs::Reading::lowest_on, crate::specs::Reading::highest_on))]
fn limits_on(k: usize) -> (i64, i64)
    ensures lowest { result.0 ≡ lowest_on k }
    ensures highest { result.1 ≡ highest_on k }
{
    if k < SUBSTANCES {
        (-River::NET_MOST, River::NET_MOST)
    } else {
        (0, i64::from(River::CARRY_MOST))
    }
}

// The value of a cell's line k, from 0, if the line has one within its limits.
fn line_value(line: &[u8; Record::LINE_BYTES], cell: u32, k: usize) -> Option<i64>
    requires { k < lines }
    ensures { result ≡ line_value line.now cell (k + 1) (lowest_on k) (highest_on k) }
{
    if line[Record::LINE_FEED] == b'\n' && front_right(line, cell, (k + 1) as u32) {
        let (lowest, highest) = limits_on(k);
        read_decimal(
            &line[Record::VALUE_START..Record::LINE_FEED],
            lowest,
            highest,
        )
    } else {
        None
    }
}

// Writes the amounts and then the carries of cell c, counted from 0, if each of its lines has its value. One loop over
// all lines, so that a line is read from one place only and the compiler sets the reading of it into the loop. Written by
// place: the amounts end and the carries begin among the lines.
fn read_cell(
    text: &[u8; Record::CELL_BYTES],
    c: usize,
    amounts: &mut [i64; SUBSTANCES],
    carries: &mut [u32; PROCESSES],
) -> Option<()>
    requires { c < most_cells }
    ensures value { is_some result ≡ cell_found text.now c }
    ensures amounts_after { OnSome result (amounts.new ≡ amounts_found text.now c) }
    ensures carries_after { OnSome result (carries.new ≡ carries_found text.now c) }
{
    let cell = (c + 1) as u32;
    let (lines, _) = text.as_chunks::<{ Record::LINE_BYTES }>();
    for (k, line) in lines.iter().enumerate() {
        let value = line_value(line, cell, k)?;
        if k < SUBSTANCES {
            amounts[k] = value;
        } else {
            carries[k - SUBSTANCES] = value as u32;
        }
    }
    Some(())
}

// Writes the amounts and carries of all cells of the text, if each line has its value, with zeros beyond the last cell.
// They are read into arrays of cells and copied at the end: of a part of the river's lists that is lent by
// `as_chunks_mut` nothing would be known after.
pub(crate) fn read_cells(text: &[u8], river: &mut River) -> Option<()>
    requires { cells_in text.now ≤ most_cells }
    ensures value { is_some result ≡ lines_right (cells_in text.now) text.now }
    ensures cells_kept { OnSome result (river.new.cells ≡ river.old.cells) }
    ensures amounts_after { OnSome result (river.new.amounts ≡ amounts_in (cells_in text.now) text.now) }
    ensures carries_after { OnSome result (river.new.carries ≡ carries_in (cells_in text.now) text.now) }
{
    let (cells, _) = text.as_chunks::<{ Record::CELL_BYTES }>();
    let mut amounts = [[0; SUBSTANCES]; River::CELLS_MOST];
    let mut carries = [[0; PROCESSES]; River::CELLS_MOST];
    for (c, cell) in cells.iter().enumerate() {
        read_cell(cell, c, &mut amounts[c], &mut carries[c])?;
    }
    river.amounts.copy_from_slice(amounts.as_flattened());
    river.carries.copy_from_slice(carries.as_flattened());
    Some(())
}

// How many cells a text of this many bytes is of: 1 to 8, and no byte more; none for any other.
#[tactic(auto, unfolding(river::specs::Rivers::cells_fit))]
pub(crate) fn cells_of(bytes: usize) -> Option<u32>
    ensures { result ≡ cells_of bytes }
{
    let n = bytes / Record::CELL_BYTES;
    if (1..=River::CELLS_MOST).contains(&n) && bytes.is_multiple_of(Record::CELL_BYTES) {
        Some(n as u32)
    } else {
        None
    }
}
