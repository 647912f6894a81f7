// What a call refuses with.
ghost use Rattle.std.specs.Prelude.{◌≡◌, Some};
ghost use Rattle.std.specs.IoError.{error_kind};
ghost use Rattle.std.specs.declared.io.ErrorKind.TheVariants.{InvalidInput};
ghost use Rattle.stoichiometry.specs.Refusals.{message, number, number_of};

use std::error::Error;
use std::{fmt, io};

// A refusal. Its number is that of the documents, in checking order from 1 on.
#[derive(Clone, Copy, Debug, PartialEq, Eq)]
pub enum Refusal {
    // The five fractions of some organic do not add to 1,000.
    Fractions = 1,
    // A yield, an inert fraction, a rate constant or a half-saturation is outside its range.
    Figures = 2,
    // A process that must consume oxygen does not, or one takes up what it must not.
    Rows = 3,
    // A river is not of 1 to 8 cells, holds what is outside its bounds, or anything but zeros beyond its last cell.
    River = 4,
    // The cell or the substance does not exist.
    Place = 5,
    // Seconds, a part, a factor, light, an air constant or a saturation is outside its range.
    Conditions = 6,
    // Some process of some cell reaches too many whole batches.
    Batches = 7,
    // Some amount would end outside its bounds.
    Bounds = 8,
    // A reading is not a number, below zero, or too large.
    Reading = 9,
    // The output or the work area is too short.
    Space = 10,
    // The text is not exactly a record.
    Text = 11,
    // The output is too short for the page.
    Page = 12,
}

impl Refusal {
    // The number of the documents. A method, as `Letter::byte` of river: `u32::from(refusal)` would not say which number.
    pub fn number(self) -> u32
        ensures answer { result ≡ number self }
    {
        self as u32
    }
}

impl Refusal {
    // What it says.
    fn message(self) -> &'static str
        ensures { result.now ≡ message self }
    {
        match self {
            Refusal::Fractions => "the fractions of some organic do not add to 1,000",
            Refusal::Figures => "a figure of the set is outside its range",
            Refusal::Rows => "a process does not consume oxygen, or takes up what it must not",
            Refusal::River =>
                "the river is not of 1 to 8 cells with amounts and carries in their bounds",
            Refusal::Place => "the cell or the substance does not exist",
            Refusal::Conditions => "a figure of the call is outside its range",
            Refusal::Batches => "some process reaches too many whole batches",
            Refusal::Bounds => "some amount would end outside its bounds",
            Refusal::Reading => "a reading is not a number, below zero, or too large",
            Refusal::Space => "the output or the work area is too short",
            Refusal::Text => "the text is not exactly a record",
            Refusal::Page => "the output is too short for the page",
        }
    }
}

impl fmt::Display for Refusal {
    ghost output = { λ refusal. Some (message refusal) };

    fn fmt<W: fmt::Write>(&self, f: &mut fmt::Formatter<W>) -> fmt::Result {
        f.write_str(self.message())
    }
}

impl Error for Refusal {}

// So that a program whose `main` answers `io::Result` hands a refusal on by `?`.
impl From<Refusal> for io::Error {
    ghost from_gives = { λ _ e. error_kind e ≡ InvalidInput };

    fn from(refusal: Refusal) -> io::Error {
        io::Error::new(io::ErrorKind::InvalidInput, refusal.message())
    }
}

// The number of an answer, 0 where the call refused nothing.
pub fn number_of<T>(answer: &Result<T, Refusal>) -> u32
    ensures answer { result ≡ number_of answer.now }
{
    match answer {
        Ok(_) => 0,
        Err(refusal) => refusal.number(),
    }
}
