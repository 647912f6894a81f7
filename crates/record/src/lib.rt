// The record of a river, written into lent bytes.
#![tactic(auto)]

ghost use Rattle.std.specs.Prelude.{◌≡◌, length};
ghost use Rattle.stoichiometry.specs.Refusals.{answer_of, number_of};
ghost use Rattle.record.specs.Writing.{write_number, output_after, work_after};

use crate::writing::write_cells;
use river::River;
use stoichiometry::{PROCESSES, Refusal, SUBSTANCES};

mod writing;

// The text of a river. It has no value of its own: calls write it into lent bytes and read it from them.
#[derive(Clone, Copy)]
pub struct Record;

impl Record {
    // Lines of a cell: its amounts, then its carries; bytes of a line, and of a cell's lines.
    pub const LINES: usize = SUBSTANCES + PROCESSES;

    pub const LINE_BYTES: usize = 27;

    pub const CELL_BYTES: usize = Record::LINES * Record::LINE_BYTES;

    // Bytes of the longest record.
    pub const BYTES_MOST: usize = River::CELLS_MOST * Record::CELL_BYTES;

    // Where the value of a line begins, its columns, and where the line feed stands.
    pub const VALUE_START: usize = 6;

    pub const VALUE_COLUMNS: usize = 20;

    pub const LINE_FEED: usize = Record::VALUE_START + Record::VALUE_COLUMNS;
}

// Writes the river's record to the start of the output and of the work area; bytes past it stay. Refuses by the first
// check that holds (4, 10), and then every byte of both is as before.
pub fn write_record(river: River, output: &mut [u8], work: &mut [u8]) -> Result<(), Refusal>
    ensures answer { result ≡ answer_of (write_number river (length output.old) (length work.old)) tt }
    ensures output { output.new ≡ output_after (number_of result) river output.old }
    ensures work { work.new ≡ work_after (number_of result) river work.old }
{
    let checked = river.checked()?;
    let bytes = river.cells as usize * Record::CELL_BYTES;
    if output.len().min(work.len()) < bytes {
        return Err(Refusal::Space);
    }
    write_cells(output, &checked);
    work[..bytes].copy_from_slice(&output[..bytes]);
    Ok(())
}
