// Inner functions of the writer: blanks first, then the digits over the last of them, and the mark.
ghost use Rattle.std.specs.Prelude.{◌≡◌, ◌≤◌, length};
ghost use Rattle.text.specs.Decimals.{plain, mark_of};

use itoa::write_digits;

// A number of 64 bits has no more digits.
const DIGITS_MOST: usize = 20;

// A number as it is written: the mark, and the digits of n.
#[derive(Clone, Copy)]
pub(crate) struct Figure {
    pub mark: u8,
    pub n: u64,
}

// A minus below zero, otherwise a blank.
pub(crate) fn mark_of(value: i64) -> u8
    ensures { result ≡ mark_of value }
{
    if value < 0 { b'-' } else { b' ' }
}

impl Figure {
    // Over all of some columns where any number has room: blanks, over the last of them the digits, and the mark before
    // the first digit.
    fn write_whole(self, out: &mut [u8])
        requires { 20 ≤ length out.old }
        ensures { out.new ≡ plain (length out.old) self.mark self.n }
    {
        out.fill(b' ');
        let end = out.len();
        let start = write_digits(self.n, out, end);
        if start > 0 {
            out[start - 1] = self.mark;
        }
    }

    // Over all of some columns, with the mark before the first digit. `write_digits` asks for room for all digits: where
    // there are fewer columns, all are written beside them, and the last ones copied.
    pub(crate) fn write_plain(self, out: &mut [u8])
        ensures { out.new ≡ plain (length out.old) self.mark self.n }
    {
        let width = out.len();
        if width < DIGITS_MOST {
            let mut all = [0; DIGITS_MOST];
            self.write_whole(&mut all);
            out.copy_from_slice(&all[DIGITS_MOST - width..]);
            return;
        }
        self.write_whole(out);
    }
}
