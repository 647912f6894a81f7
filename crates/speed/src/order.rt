// What standard input asks for.

// What a turn calls.
#[derive(Clone, Copy)]
pub(crate) enum Kind {
    Nothing,
    Step,
    Flow,
    Air,
    Load,
    Rows,
    Write,
    Read,
    Frame,
    Page,
}

// A letter of no kind.
#[derive(Clone, Copy)]
pub(crate) struct UnknownKind;

impl TryFrom<u8> for Kind {
    type Error = UnknownKind;

    fn try_from(letter: u8) -> Result<Kind, UnknownKind> {
        match letter {
            b'n' => Ok(Kind::Nothing),
            b's' => Ok(Kind::Step),
            b'f' => Ok(Kind::Flow),
            b'a' => Ok(Kind::Air),
            b'l' => Ok(Kind::Load),
            b'r' => Ok(Kind::Rows),
            b'w' => Ok(Kind::Write),
            b'R' => Ok(Kind::Read),
            b'p' => Ok(Kind::Frame),
            b'b' => Ok(Kind::Page),
            _ => Err(UnknownKind),
        }
    }
}

// A kind, and how many turns.
#[derive(Clone, Copy)]
pub(crate) struct Order {
    pub kind: Kind,
    pub turns: u64,
}

// No more turns than this are made: from there on a digit changes nothing.
const MOST: u64 = 1000000000;

// Each program has such a function, with an end of its own: programs share only crates below them, and one for it would
// have to promise it, for one expression.
fn with_digit(turns: u64, byte: u8) -> u64 {
    match byte {
        b'0'..=b'9' if turns < MOST => turns * 10 + u64::from(byte - b'0'),
        _ => turns,
    }
}

// The letter is the first byte; the digits that follow are those of the number of turns. No text asks for no turn.
impl TryFrom<&[u8]> for Order {
    type Error = UnknownKind;

    fn try_from(text: &[u8]) -> Result<Order, UnknownKind> {
        let Some((letter, digits)) = text.split_first() else {
            return Ok(Order {
                kind: Kind::Nothing,
                turns: 0,
            });
        };
        let kind = Kind::try_from(*letter)?;
        let turns = digits
            .iter()
            .fold(0u64, |turns, byte| with_digit(turns, *byte));
        Ok(Order { kind, turns })
    }
}
