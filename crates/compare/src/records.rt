// The calls on records, and the text that is read: the river's record, changed for one call.
ghost use Rattle.std.specs.Prelude.{◌≤◌};

use crate::digest::{Answer, Digest};
use crate::line::Line;
use record::Record;
use river::{AMOUNTS, CARRIES, River};
use stoichiometry::Refusal;

// Room for more than a text of nine cells.
pub(crate) const ROOM: usize = 8600;

// A text, and what stands behind it in its room. A line can lengthen the text over that, so this is no vector.
#[derive(Clone, Copy)]
pub(crate) struct Text {
    bytes: [u8; ROOM],
    length: usize,
    ghost in_room: { length ≤ 8600 },
}

// The length of the record of so many cells.
fn record_length(cells: u32) -> usize
    ensures { result ≤ 8600 }
{
    if cells <= River::CELLS_MOST as u32 {
        cells as usize * Record::CELL_BYTES
    } else {
        0
    }
}

impl Text {
    // The record of a river; no bytes where the river is refused.
    pub(crate) fn of(river: River) -> Text {
        let mut bytes = [0; ROOM];
        let mut work = [0; ROOM];
        let length = record::write_record(river, &mut bytes, &mut work).map_or(
            0,
            |()| record_length(river.cells),
        );
        Text { bytes, length }
    }

    fn lent(&self) -> &[u8] {
        &self.bytes[..self.length]
    }

    // Puts numbers, as bytes, from a place on, where all of them and one byte more are in the room.
    pub(crate) fn put(&mut self, place: usize, numbers: &[u64]) {
        let end = place.saturating_add(numbers.len());
        if end < ROOM {
            if let Some(bytes) = self.bytes.get_mut(place..end) {
                for (byte, number) in bytes.iter_mut().zip(numbers) {
                    *byte = (*number % 256) as u8;
                }
            }
        }
    }

    // Copies bytes one by one, the first one first, where all of them are in the room, as the vectors' table has it. By
    // `copy_within` all are read before the first is written: another text where what is written begins within what
    // is read.
    pub(crate) fn copy(&mut self, from: usize, to: usize, count: usize) {
        if count <= ROOM && from <= ROOM - count && to <= ROOM - count {
            for i in 0..count {
                self.bytes[to + i] = self.bytes[from + i];
            }
        }
    }

    pub(crate) fn set_length(&mut self, length: usize) {
        self.length = length.min(ROOM);
    }
}

fn write_both(river: River, output: &mut [u8], work: &mut [u8]) -> Answer {
    let answer = record::write_record(river, output, work);
    Answer::of(&answer, Digest::START.with_all(output).with_all(work))
}

// The record written into buffers of the lengths that a line gives, the output filled with 35 before, the work area
// with 42, so that a byte that should stay and does not shows in the digest.
pub(crate) fn written(line: &Line, river: River) -> Answer {
    let mut output = [35; ROOM];
    let mut work = [42; ROOM];
    let first = line.place(0).min(ROOM);
    let second = line.place(1).min(ROOM);
    write_both(river, &mut output[0..first], &mut work[0..second])
}

// A river of no cells, which no call answers; the digest that the vectors give of a refused reading is of this river.
pub(crate) fn no_river() -> River {
    River {
        cells: 0,
        amounts: [0; AMOUNTS],
        carries: [0; CARRIES],
    }
}

fn of_read(answer: Result<River, Refusal>) -> Answer {
    Answer::of(&answer, Digest::of_river(&answer.unwrap_or(no_river())))
}

pub(crate) fn read(text: &Text) -> Answer {
    of_read(record_reading::read_record(text.lent()))
}

pub(crate) fn lines(line: &Line, text: &Text) -> Answer {
    let cell = line.figure(0);
    let number = record_reading::number_of_cell(text.lent(), cell);
    let lines = record_reading::lines_of_cell(text.lent(), cell);
    Answer {
        number: u64::from(number),
        digest: Digest::START.with(lines.len() as i64).with_all(lines),
    }
}
