// Prints the record of a fresh river of one cell: 35 lines, each value 0.
#![tactic(auto)]

use record::Record;
use river::River;
use std::io;

fn main(rt: HostRuntime) -> io::Result<()> {
    let fresh = River::fresh(1)?;
    let mut output = [0; Record::CELL_BYTES];
    let mut work = [0; Record::CELL_BYTES];
    record::write_record(fresh, &mut output, &mut work)?;
    rt.write_all(&output)
}
