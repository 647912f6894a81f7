// One turn of each kind: one call, and the checksum with its answer. Each call stands in a function of its own and not
// in the body of a loop. An answer that the body of a loop holds counts as alive from turn to turn, so the compiler has
// the call fill another and copies that, 1.7 KB of a river; of a function that is compiled into the loop it knows that
// the answer ends with the turn. The turns that are answered a river end alike, each written out: with one function for
// their ends a flow takes a tenth longer, and the writing of a record a sixth.
// What a turn takes, a river, a set, a text or readings, and the checksum are two arguments, as the loop hands them over:
// a struct of both would be made for each turn and taken apart in it at once.
use crate::checksum::Checksum;
use crate::frames::{READINGS, frame_of, with_frame};
use crate::records::{BYTES, PAGE_BYTES};
use crate::rivers::load_of;
use crate::sets::conditions_of;
use page::Page;
use record::Record;
use river::River;
use stoichiometry::{ENTRIES, SUBSTANCES, Set};

pub(crate) fn step_turn(set: Set, river: River, before: Checksum) -> Checksum {
    let answer = step::step_river(set, river, conditions_of(before.turn));
    let with_number = before.with_number_of(&answer);
    match &answer {
        Ok(after) => with_number.with_river(after),
        Err(_) => with_number,
    }
}

pub(crate) fn flow_turn(river: &River, before: Checksum) -> Checksum {
    let answer = transport::flow_river(*river, (before.turn % 10001) as u32);
    let with_number = before.with_number_of(&answer);
    match &answer {
        Ok(flowed) => with_number
            .with_river(&flowed.river)
            .with_amounts(&flowed.left),
        Err(_) => with_number,
    }
}

pub(crate) fn air_turn(river: &River, before: Checksum) -> Checksum {
    let turn = before.turn;
    let answer = transport::air_river(
        *river,
        (1 + turn / 8 % 8) as u32,
        (turn % 20001) as u32,
        (1 + turn % 3600) as u32,
        (8000000 + turn % 4000000) as u32,
    );
    let with_number = before.with_number_of(&answer);
    match &answer {
        Ok(aired) => with_number
            .with_signed(aired.amount)
            .with_river(&aired.river),
        Err(_) => with_number,
    }
}

pub(crate) fn load_turn(river: &River, before: Checksum) -> Checksum {
    let turn = before.turn;
    let answer = transport::load_river(
        *river,
        (1 + turn / 8 % 8) as u32,
        (1 + turn % SUBSTANCES as u64) as u32,
        load_of(turn),
    );
    let with_number = before.with_number_of(&answer);
    match &answer {
        Ok(after) => with_number.with_river(after),
        Err(_) => with_number,
    }
}

// A turn takes an entry of each half of the rows.
const HALF: usize = ENTRIES / 2;

pub(crate) fn rows_turn(set: &Set, before: Checksum) -> Checksum {
    let answer = rows::rows_of(*set);
    let entry = (before.turn % HALF as u64) as usize;
    let with_number = before.with_number_of(&answer);
    match &answer {
        Ok(rows) => with_number
            .with_signed(rows.entries[entry])
            .with_signed(rows.entries[entry + HALF]),
        Err(_) => with_number.with_signed(0).with_signed(0),
    }
}

pub(crate) fn write_turn(
    river: River,
    output: &mut [u8; BYTES],
    work: &mut [u8; BYTES],
    before: Checksum,
) -> Checksum {
    let answer = record::write_record(river, output, work);
    before
        .with_number_of(&answer)
        .with_text(output, Record::CELL_BYTES)
        .with_text(work, Record::CELL_BYTES)
}

pub(crate) fn page_turn(river: River, output: &mut [u8; PAGE_BYTES], before: Checksum) -> Checksum {
    let answer = page::write_page(river, output);
    before
        .with_number_of(&answer)
        .with_text(output, Page::ROW_BYTES)
}

pub(crate) fn read_turn(text: &[u8; BYTES], before: Checksum) -> Checksum {
    let answer = record_reading::read_record(text);
    let with_number = before.with_number_of(&answer);
    match &answer {
        Ok(after) => with_number.with_river(after),
        Err(_) => with_number,
    }
}

pub(crate) fn frame_turn(readings: &[f32; READINGS], before: Checksum) -> Checksum {
    let turn = before.turn;
    let answer = probe::amounts_of(frame_of(readings, turn), (8000000 + turn % 4000000) as u32);
    with_frame(before, &answer)
}
