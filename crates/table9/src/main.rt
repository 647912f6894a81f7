// Compares the rows of the published set with Table 9 of document 000, by whole numbers. Standard input is the table as
// it is printed: a line for each process, with its number and the columns in the order of the substances, a point for a
// blank. A printed figure has to agree with the row's entry to half a unit of its last digit, a blank to stand for 0.
#![tactic(auto)]

mod agreement;
mod set;
mod table;

use std::io;
use streams::read_full;

// The most bytes of the table that are read.
const MOST: usize = 4096;

fn main(rt: HostRuntime) -> io::Result<()> {
    let mut text = [0; MOST];
    let n = read_full(&mut rt.reader(), &mut text)?;
    let rows = set::published_rows()?;
    table::compare(&rt, &text[..n], &rows)
}
