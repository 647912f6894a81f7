// The record of a river, read back and handed out by cells. A text is a record or it is refused.
#![tactic(auto)]

ghost use Rattle.std.specs.Prelude.{◌≡◌, IfOk};
ghost use Rattle.stoichiometry.specs.Refusals.{number_of};
ghost use Rattle.record_reading.specs.Reading.{read_answer, cell_number, cell_lines};

use crate::reading::{cells_of, read_cells};
use record::Record;
use river::{AMOUNTS, CARRIES, River};
use stoichiometry::{Refusal, number_of};

mod reading;

// The river of a record, with zeros beyond its last cell. Refuses every other text with 11.
pub fn read_record(text: &[u8]) -> Result<River, Refusal>
    ensures answer { result ≡ read_answer text.now }
{
    let mut river = River {
        cells: cells_of(text.len()).ok_or(Refusal::Text)?,
        amounts: [0; AMOUNTS],
        carries: [0; CARRIES],
    };
    read_cells(text, &mut river).ok_or(Refusal::Text)?;
    if !river.fits() {
        return Err(Refusal::Text);
    }
    Ok(river)
}

// The lines of one cell, counted from 1, as that part of the text. Refuses with 11, then 5.
fn part_of(text: &[u8], cell: u32) -> Result<&[u8], Refusal>
    ensures number { number_of result ≡ cell_number text.now cell }
    ensures lines { IfOk result (λ part. part.now ≡ cell_lines text.now cell) }
{
    let river = read_record(text)?;
    let c = river.place_of(cell)?;
    let (cells, _) = text.as_chunks::<{ Record::CELL_BYTES }>();
    Ok(&cells[c])
}

// The number that goes with `lines_of_cell`: 11, then 5, or 0. Cells are counted from 1. The scope asks for the part of
// the text alone, empty on a refusal, and for this companion call: hence two calls, and no `Result`.
pub fn number_of_cell(text: &[u8], cell: u32) -> u32
    ensures answer { result ≡ cell_number text.now cell }
{
    number_of(&part_of(text, cell))
}

// The lines of one cell, as that part of the lent text; empty where `number_of_cell` gives a number.
pub fn lines_of_cell(text: &[u8], cell: u32) -> &[u8]
    ensures answer { result.now ≡ cell_lines text.now cell }
{
    part_of(text, cell).unwrap_or(&text[0..0])
}
