// Rows written into lent bytes, cell by cell.
ghost use Rattle.std.specs.Prelude.{◌≡◌, ◌*◌, ◌≤◌, ◌<◌, length, map};
ghost use Rattle.std.specs.List.{flat_map};
ghost use Rattle.stoichiometry.specs.Levels.{most_level};
ghost use Rattle.river.specs.Rivers.{most_cells};
ghost use Rattle.text.specs.Writes.{put};
ghost use Rattle.page.specs.Pages.{level_columns, row_bytes, grams, row, levels_at, page_of};
ghost use Rattle.page.specs.Inner.Stages.{levels_text, pair_of, justified_of, whole_of, cell_row, CellFits};

use crate::Page;
use river::{Checked, letter_by};
use stoichiometry::{Microgram, SUBSTANCES, place};

// Where NH4 and O2, by which the letter goes, stand among the levels of a row.
const AMMONIUM: usize = 1;

const OXYGEN: usize = 5;

// A level, µg, in its bounds.
#[derive(Clone, Copy)]
struct Level {
    micrograms: u32,
    ghost most: { micrograms ≤ most_level },
}

// A cell of a river, of which the amounts that a row shows are known to be in their bounds. Not step's `Cell`: each
// knows the bounds of the amounts that it needs, a row six, a step all 18.
#[derive(Clone, Copy)]
struct Cell<'a> {
    amounts: &'a [i64; SUBSTANCES],
    ghost fits: { CellFits amounts.now },
}

impl Cell<'_> {
    // The levels that a row has, in its order, rounded down.
    #[tactic(auto, unfolding(crate::specs::Pages::levels_at, stoichiometry::specs::Levels::level_of))]
    fn levels(&self) -> [Level; Page::LEVELS]
        ensures { map (λ level. level.micrograms) result ≡ levels_at self.now.amounts.now 0 }
    {
        [
            Level {
                micrograms: Microgram::Organic.level(self.amounts[place::SS]) as u32,
            },
            Level {
                micrograms: Microgram::Nitrogen.level(self.amounts[place::NH4]) as u32,
            },
            Level {
                micrograms: Microgram::Nitrogen.level(self.amounts[place::NO2]) as u32,
            },
            Level {
                micrograms: Microgram::Nitrogen.level(self.amounts[place::NO3]) as u32,
            },
            Level {
                micrograms: Microgram::Phosphorus.level(self.amounts[place::HPO4]) as u32,
            },
            Level {
                micrograms: Microgram::Oxygen.level(self.amounts[place::O2]) as u32,
            },
        ]
    }
}

// The numbers below 100 in two columns: with both digits, and with a blank for a first digit of 0. By tables: with
// computed digits a page takes a third longer, and with a test for the blank in place of a table 1.2 times as long.
static PAIRS: [[u8; 2]; 100] = [
    *b"00", *b"01", *b"02", *b"03", *b"04", *b"05", *b"06", *b"07", *b"08", *b"09", *b"10", *b"11",
    *b"12", *b"13", *b"14", *b"15", *b"16", *b"17", *b"18", *b"19", *b"20", *b"21", *b"22", *b"23",
    *b"24", *b"25", *b"26", *b"27", *b"28", *b"29", *b"30", *b"31", *b"32", *b"33", *b"34", *b"35",
    *b"36", *b"37", *b"38", *b"39", *b"40", *b"41", *b"42", *b"43", *b"44", *b"45", *b"46", *b"47",
    *b"48", *b"49", *b"50", *b"51", *b"52", *b"53", *b"54", *b"55", *b"56", *b"57", *b"58", *b"59",
    *b"60", *b"61", *b"62", *b"63", *b"64", *b"65", *b"66", *b"67", *b"68", *b"69", *b"70", *b"71",
    *b"72", *b"73", *b"74", *b"75", *b"76", *b"77", *b"78", *b"79", *b"80", *b"81", *b"82", *b"83",
    *b"84", *b"85", *b"86", *b"87", *b"88", *b"89", *b"90", *b"91", *b"92", *b"93", *b"94", *b"95",
    *b"96", *b"97", *b"98", *b"99",
];

static JUSTIFIED: [[u8; 2]; 100] = [
    *b" 0", *b" 1", *b" 2", *b" 3", *b" 4", *b" 5", *b" 6", *b" 7", *b" 8", *b" 9", *b"10", *b"11",
    *b"12", *b"13", *b"14", *b"15", *b"16", *b"17", *b"18", *b"19", *b"20", *b"21", *b"22", *b"23",
    *b"24", *b"25", *b"26", *b"27", *b"28", *b"29", *b"30", *b"31", *b"32", *b"33", *b"34", *b"35",
    *b"36", *b"37", *b"38", *b"39", *b"40", *b"41", *b"42", *b"43", *b"44", *b"45", *b"46", *b"47",
    *b"48", *b"49", *b"50", *b"51", *b"52", *b"53", *b"54", *b"55", *b"56", *b"57", *b"58", *b"59",
    *b"60", *b"61", *b"62", *b"63", *b"64", *b"65", *b"66", *b"67", *b"68", *b"69", *b"70", *b"71",
    *b"72", *b"73", *b"74", *b"75", *b"76", *b"77", *b"78", *b"79", *b"80", *b"81", *b"82", *b"83",
    *b"84", *b"85", *b"86", *b"87", *b"88", *b"89", *b"90", *b"91", *b"92", *b"93", *b"94", *b"95",
    *b"96", *b"97", *b"98", *b"99",
];

// A pair of each table, by value: where it is copied from the table itself, a page takes a fifth longer. That n is below
// 100 is asked: as a type it would be made for each pair and taken apart at once.
#[tactic(auto, using(crate::proofs::FigureLaws::pair_at))]
fn pair(n: u32) -> [u8; 2]
    requires { n < 100 }
    ensures { result ≡ pair_of n }
{
    PAIRS[n as usize]
}

#[tactic(auto, using(crate::proofs::FigureLaws::justified_at))]
fn justified(n: u32) -> [u8; 2]
    requires { n < 100 }
    ensures { result ≡ justified_of n }
{
    JUSTIFIED[n as usize]
}

// The whole grams of a level in two pairs of columns.
fn whole(grams: u32) -> [[u8; 2]; 2]
    requires { grams < 10000 }
    ensures { result ≡ whole_of grams }
{
    if grams < 100 {
        return [*b"  ", justified(grams)];
    }
    [justified(grams / 100), pair(grams % 100)]
}

// A level in its columns, pair by pair.
fn level_pairs(level: Level) -> [[u8; 2]; Page::LEVEL_COLUMNS / 2]
    ensures { flat_map (λ x. x) result ≡ grams level.micrograms }
{
    let thousandths = level.micrograms / 1000;
    let grams = thousandths / 1000;
    // Not `thousandths % 1000`, with which a page takes 6 % more instructions.
    let rest = thousandths - grams * 1000;
    let [first, second] = whole(grams);
    let tenth = b'0' + (rest / 100) as u8;
    [*b"  ", first, second, [b'.', tenth], pair(rest % 100)]
}

// The levels of a row over their columns. In a loop: where all pairs are made first, by `map`, a page takes 1.9 times
// as long, and by `from_fn` 1.2 times. Blocks are cut out by their place, here and in `write_rows`: nothing is known of
// a text after `as_chunks_mut`, and a function for both loops that calls a closure with each block is no plainer: it
// asks how the closure may be called and what it leaves, and each closure says so once more. The length of a text is
// asked, here and below: a `&mut [u8; N]` is cut out as an Option, and so the levels of a row, and each row, would have
// a branch for a None that never comes.
fn write_levels(text: &mut [u8], levels: &[Level; Page::LEVELS])
    requires { length text.old ≡ 6 * level_columns }
    ensures { text.new ≡ levels_text (map (λ level. level.micrograms) levels.now) 6 }
{
    for (i, level) in levels.iter().enumerate() {
        let at = i * Page::LEVEL_COLUMNS;
        text[at..at + Page::LEVEL_COLUMNS].copy_from_slice(level_pairs(*level).as_flattened());
    }
}

// A row over its bytes.
fn write_row(text: &mut [u8], cell: u8, letter: u8, levels: &[Level; Page::LEVELS])
    requires { (length text.old ≡ row_bytes) × (cell < 10) }
    ensures { text.new ≡ row cell letter (map (λ level. level.micrograms) levels.now) }
{
    text[0] = b' ';
    text[1] = b'0' + cell;
    text[2] = b' ';
    text[Page::LETTER] = letter;
    write_levels(&mut text[Page::LEVELS_START..Page::LINE_FEED], levels);
    text[Page::LINE_FEED] = b'\n';
}

// The row of a cell over its bytes; cells are counted from 0.
fn write_cell(text: &mut [u8], c: usize, cell: &Cell)
    requires { (length text.old ≡ row_bytes) × (c < most_cells) }
    ensures { text.new ≡ cell_row c cell.now.amounts.now }
{
    let levels = cell.levels();
    let letter = letter_by(
        u64::from(levels[OXYGEN].micrograms),
        u64::from(levels[AMMONIUM].micrograms),
    );
    write_row(text, (c + 1) as u8, letter.byte(), &levels);
}

// The rows of a river's cells.
pub(crate) fn write_rows(out: &mut [u8], checked: &Checked)
    requires { checked.now.river.now.cells * row_bytes ≤ length out.old }
    ensures { out.new ≡ put out.old 0 (page_of checked.now.river.now) }
{
    let river = checked.river;
    let (cells, _) = river.amounts.as_chunks::<SUBSTANCES>();
    for (c, amounts) in cells[..river.cells as usize].iter().enumerate() {
        let at = c * Page::ROW_BYTES;
        let cell = Cell { amounts };
        write_cell(&mut out[at..at + Page::ROW_BYTES], c, &cell);
    }
}
