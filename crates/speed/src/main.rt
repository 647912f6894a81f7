// Makes many calls of one kind on rivers of eight cells and writes one line, a checksum of the answers: for measuring
// the time of a call. Standard input is a letter for the kind and how many calls, as in `s 1000`. The kinds: step,
// flow, air, load, rows of a set, write a record, Read a record, probe frame, bank page, and n for turns that make no
// call; for any other letter 0 is written.
#![tactic(auto)]

mod calls;
mod checksum;
mod frames;
mod order;
mod records;
mod rivers;
mod sets;
mod turns;

use crate::order::{Order, UnknownKind};
use std::io;
use streams::read_full;

// The most bytes of standard input that are read.
const READ_MOST: usize = 4096;

fn main(rt: HostRuntime) -> io::Result<()> {
    let mut text = [0; READ_MOST];
    let n = read_full(&mut rt.reader(), &mut text)?;
    let sum = match Order::try_from(&text[..n]) {
        Ok(order) => calls::checksum_of(order)?,
        Err(UnknownKind) => 0,
    };
    println!(rt; "{sum}")
}
