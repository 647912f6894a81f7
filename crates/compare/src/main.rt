// Makes the calls of the vectors (standard input; reference/src/vectors.rs says how they are written) and compares what
// they answer with what the reference answered. Prints a table of the calls by kind and number, how many answers were
// equal, and the first difference.
#![tactic(auto)]

mod calls;
mod digest;
mod frames;
mod kinds;
mod line;
mod pages;
mod reading;
mod records;
mod scene;
mod set;
mod tally;
mod write;

use std::io;

fn main(rt: HostRuntime) -> io::Result<()> {
    let tally = reading::tally_of(&rt)?;
    write::write_table(&rt, &tally)
}
