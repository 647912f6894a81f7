// A record on a stream, for the programs that take one.
#![tactic(auto)]

ghost use Rattle.std.specs.Prelude.{◌≡◌, IfOk, IfSome};
ghost use Rattle.record_reading.specs.Reading.{read_answer};

use record::Record;
use record_reading::read_record;
use river::River;
use std::io::{self, Read};
use stoichiometry::Refusal;
use streams::read_full;

// One byte more than the longest record has is enough to know that an input is none.
const READ_MOST: usize = Record::BYTES_MOST + 1;

// The river of the record that is the whole of an input, which is refused with 11 where it is none. No input, not one
// without end, is read further than it must be to know that.
pub fn read_river<R: Read>(input: &mut R) -> io::Result<Result<River, Refusal>>
    ensures answer { IfOk result (λ answer. IfSome (R.remaining input.old) (λ text. answer ≡ read_answer text)) }
{
    let mut text = [0; READ_MOST];
    let n = read_full(input, &mut text)?;
    Ok(read_record(&text[..n]))
}
