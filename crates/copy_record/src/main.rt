// Reads a record from standard input and writes it back; for any other input, its number and a line feed.
#![tactic(auto)]

use record::Record;
use record_input::read_river;
use std::io;

fn main(rt: HostRuntime) -> io::Result<()> {
    let river = match read_river(&mut rt.reader())? {
        Ok(river) => river,
        Err(refusal) => return rt.println(refusal.number()),
    };
    let mut output = [0; Record::BYTES_MOST];
    let mut work = [0; Record::BYTES_MOST];
    record::write_record(river, &mut output, &mut work)?;
    let bytes = river.cells as usize * Record::CELL_BYTES;
    if let Some(text) = output.get(..bytes) {
        rt.write_all(text)?;
    }
    Ok(())
}
