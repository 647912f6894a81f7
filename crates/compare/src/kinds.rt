// What a line asks for, by its letter: reference/src/vectors.rs has the table.
use std::fmt;

#[derive(Clone, Copy)]
pub(crate) enum Kind {
    // The set of the block, by its figures.
    Set,
    Change(Change),
    Call(Call),
}

// What is changed for the next call alone.
#[derive(Clone, Copy)]
pub(crate) enum Change {
    Figure,
    Cells,
    Amount,
    Carry,
    Bytes,
    BytesCopied,
    Length,
}

// A call; as a number, its place in the table.
#[derive(Clone, Copy)]
pub(crate) enum Call {
    Check,
    Rows,
    Published,
    Fresh,
    Load,
    Flow,
    Air,
    Step,
    Totals,
    Letter,
    Frame,
    Write,
    Read,
    Lines,
    Page,
}

impl Call {
    pub(crate) const COUNT: usize = 15;

    // In the order of the table.
    pub(crate) const ALL: [Call; Call::COUNT] = [
        Call::Check,
        Call::Rows,
        Call::Published,
        Call::Fresh,
        Call::Load,
        Call::Flow,
        Call::Air,
        Call::Step,
        Call::Totals,
        Call::Letter,
        Call::Frame,
        Call::Write,
        Call::Read,
        Call::Lines,
        Call::Page,
    ];
}

// The name in the table.
impl fmt::Display for Call {
    fn fmt<W: fmt::Write>(&self, f: &mut fmt::Formatter<W>) -> fmt::Result {
        f.pad(match self {
            Call::Check => "set",
            Call::Rows => "rows",
            Call::Published => "published",
            Call::Fresh => "fresh",
            Call::Load => "load",
            Call::Flow => "flow",
            Call::Air => "air",
            Call::Step => "step",
            Call::Totals => "totals",
            Call::Letter => "letter",
            Call::Frame => "frame",
            Call::Write => "write",
            Call::Read => "read",
            Call::Lines => "lines",
            Call::Page => "page",
        })
    }
}

// A letter that asks for nothing.
#[derive(Clone, Copy)]
pub(crate) struct UnknownLetter;

impl TryFrom<u8> for Kind {
    type Error = UnknownLetter;

    fn try_from(letter: u8) -> Result<Kind, UnknownLetter> {
        match letter {
            b'G' => Ok(Kind::Set),
            b'f' => Ok(Kind::Change(Change::Figure)),
            b'c' => Ok(Kind::Change(Change::Cells)),
            b'a' => Ok(Kind::Change(Change::Amount)),
            b'k' => Ok(Kind::Change(Change::Carry)),
            b'b' => Ok(Kind::Change(Change::Bytes)),
            b'm' => Ok(Kind::Change(Change::BytesCopied)),
            b'l' => Ok(Kind::Change(Change::Length)),
            b'C' => Ok(Kind::Call(Call::Check)),
            b'R' => Ok(Kind::Call(Call::Rows)),
            b'P' => Ok(Kind::Call(Call::Published)),
            b'N' => Ok(Kind::Call(Call::Fresh)),
            b'L' => Ok(Kind::Call(Call::Load)),
            b'F' => Ok(Kind::Call(Call::Flow)),
            b'A' => Ok(Kind::Call(Call::Air)),
            b'S' => Ok(Kind::Call(Call::Step)),
            b'T' => Ok(Kind::Call(Call::Totals)),
            b'Y' => Ok(Kind::Call(Call::Letter)),
            b'M' => Ok(Kind::Call(Call::Frame)),
            b'W' => Ok(Kind::Call(Call::Write)),
            b'D' => Ok(Kind::Call(Call::Read)),
            b'I' => Ok(Kind::Call(Call::Lines)),
            b'B' => Ok(Kind::Call(Call::Page)),
            _ => Err(UnknownLetter),
        }
    }
}
