// The records that are written and read, and the bytes of a page.
use crate::rivers::RIVERS;
use page::Page;
use record::Record;
use river::River;

pub(crate) const BYTES: usize = Record::BYTES_MOST;

pub(crate) const PAGE_BYTES: usize = Page::BYTES_MOST;

// None of these rivers is refused, so the answer is let go: an array's `map` does not end at a refusal, and a loop that
// does fills a list of empty texts first. The checksum of the turns that read them would show one.
fn record_of(river: River) -> [u8; BYTES] {
    let mut output = [0; BYTES];
    let mut work = [0; BYTES];
    let _ = record::write_record(river, &mut output, &mut work);
    output
}

pub(crate) fn records_of(rivers: [River; RIVERS]) -> [[u8; BYTES]; RIVERS] {
    rivers.map(record_of)
}
