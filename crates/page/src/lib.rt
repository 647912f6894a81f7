// The bank page of a river: what a crew reads beside the water, a row for each cell, written into lent bytes.
#![tactic(auto)]

ghost use Rattle.std.specs.Prelude.{◌≡◌, length};
ghost use Rattle.stoichiometry.specs.Refusals.{answer_of, number_of};
ghost use Rattle.page.specs.Writing.{page_number, page_after};

use crate::writing::write_rows;
use river::River;
use stoichiometry::Refusal;

mod writing;

// The text of a river for its crew. It has no value of its own: `write_page` writes it into lent bytes.
#[derive(Clone, Copy)]
pub struct Page;

impl Page {
    // Where the letter of a row stands and where its levels begin; how many they are, and the columns of each.
    pub const LETTER: usize = 3;

    pub const LEVELS_START: usize = 4;

    pub const LEVELS: usize = 6;

    pub const LEVEL_COLUMNS: usize = 10;

    // Where the line feed of a row stands, and the bytes of a row.
    pub const LINE_FEED: usize = Page::LEVELS_START + Page::LEVELS * Page::LEVEL_COLUMNS;

    pub const ROW_BYTES: usize = Page::LINE_FEED + 1;

    // Bytes of the longest page.
    pub const BYTES_MOST: usize = River::CELLS_MOST * Page::ROW_BYTES;
}

// Writes the river's page to the start of the output; bytes past it stay. Refuses by the first check that holds (4, 12),
// and then every byte is as before.
pub fn write_page(river: River, output: &mut [u8]) -> Result<(), Refusal>
    ensures answer { result ≡ answer_of (page_number river (length output.old)) tt }
    ensures output { output.new ≡ page_after (number_of result) river output.old }
{
    let checked = river.checked()?;
    if output.len() < river.cells as usize * Page::ROW_BYTES {
        return Err(Refusal::Page);
    }
    write_rows(output, &checked);
    Ok(())
}
