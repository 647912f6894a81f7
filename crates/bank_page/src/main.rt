// Reads a record from standard input and prints its bank page; for any other input, its number and a line feed. Its
// `main` is not one with copy_record's, though both stand on `record_input`: a function there would be public, take the
// call that writes, and have to ask that it may be called, which no public call does.
#![tactic(auto)]

use page::Page;
use record_input::read_river;
use std::io;

fn main(rt: HostRuntime) -> io::Result<()> {
    let river = match read_river(&mut rt.reader())? {
        Ok(river) => river,
        Err(refusal) => return rt.println(refusal.number()),
    };
    let mut output = [0; Page::BYTES_MOST];
    page::write_page(river, &mut output)?;
    let bytes = river.cells as usize * Page::ROW_BYTES;
    if let Some(text) = output.get(..bytes) {
        rt.write_all(text)?;
    }
    Ok(())
}
