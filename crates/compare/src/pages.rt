// The call that writes a page.
use crate::digest::{Answer, Digest};
use crate::line::Line;
use crate::records::ROOM;
use river::River;

fn write_one(river: River, output: &mut [u8]) -> Answer {
    let answer = page::write_page(river, output);
    Answer::of(&answer, Digest::START.with_all(output))
}

// The page written into an output of the length that a line gives, filled with 35 before, so that a byte that should
// stay and does not shows in the digest.
pub(crate) fn written(line: &Line, river: River) -> Answer {
    let mut output = [35; ROOM];
    let length = line.place(0).min(ROOM);
    write_one(river, &mut output[0..length])
}
