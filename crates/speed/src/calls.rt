// The calls of each kind. The rivers, the sets and the records are made before the first turn. What a turn does is in
// turns.rt.
use crate::checksum::Checksum;
use crate::frames::readings;
use crate::order::{Kind, Order};
use crate::records::{BYTES, PAGE_BYTES, records_of};
use crate::rivers::rivers;
use crate::sets::sets;
use crate::turns::{
    air_turn, flow_turn, frame_turn, load_turn, page_turn, read_turn, rows_turn, step_turn,
    write_turn,
};
use stoichiometry::Refusal;

fn steps(turns: u64) -> Result<u64, Refusal> {
    let sets = sets()?;
    let rivers = rivers();
    Ok(Checksum::of_turns(turns, &sets, |set, before| {
        step_turn(*set, rivers[(before.turn % 8) as usize], before)
    }))
}

fn writes(turns: u64) -> u64 {
    let mut output = [0; BYTES];
    let mut work = [0; BYTES];
    Checksum::of_turns(turns, &rivers(), |river, before| {
        write_turn(*river, &mut output, &mut work, before)
    })
}

fn pages(turns: u64) -> u64 {
    let mut output = [0; PAGE_BYTES];
    Checksum::of_turns(turns, &rivers(), |river, before| {
        page_turn(*river, &mut output, before)
    })
}

// The checksum of the calls that are asked for.
pub(crate) fn checksum_of(order: Order) -> Result<u64, Refusal> {
    let turns = order.turns;
    // Rivers, sets, records or readings are prepared by arm, so that a table of functions is no plainer.
    let sum = match order.kind {
        Kind::Nothing => Checksum::of_turns(turns, &rivers(), |river, before| {
            before.with(u64::from(river.cells))
        }),
        Kind::Step => steps(turns)?,
        Kind::Flow => Checksum::of_turns(turns, &rivers(), flow_turn),
        Kind::Air => Checksum::of_turns(turns, &rivers(), air_turn),
        Kind::Load => Checksum::of_turns(turns, &rivers(), load_turn),
        Kind::Rows => Checksum::of_turns(turns, &sets()?, rows_turn),
        Kind::Write => writes(turns),
        Kind::Read => Checksum::of_turns(turns, &records_of(rivers()), read_turn),
        Kind::Frame => Checksum::of_turns(turns, &[readings()], frame_turn),
        Kind::Page => pages(turns),
    };
    Ok(sum)
}
