// Numbers written right-justified in columns, and bytes copied; for any width and any count. Every call answers for
// every input; a write that does not fit changes nothing. What each call means: specs/.
#![tactic(auto)]

ghost use Rattle.std.specs.Prelude.{◌≡◌, length};
ghost use Rattle.text.specs.Writes.{put_within, copied};
ghost use Rattle.text.specs.Decimals.{plain, decimal};

use crate::writing::{Figure, mark_of};
use itoa::write_digits;
use numeric::magnitude;

mod writing;

// The value over all of the columns: blanks, and over the last of them the digits, by the kit's `itoa`. `write!` with a
// width would need a writer over the lent bytes, and cuts off no digits where there are fewer columns.
pub fn write_value(columns: &mut [u8], value: i64)
    ensures columns { columns.new ≡ decimal (length columns.old) value }
{
    let figure = Figure {
        mark: mark_of(value),
        n: magnitude(value),
    };
    figure.write_plain(columns);
}

// The value in `width` columns from `at` on, where they are all there. Kept beside `write_value` for callers that have a
// place and a width: no place and no width is wrong, and one that is past the end is tested here.
pub fn write_decimal(out: &mut [u8], at: usize, width: usize, value: i64)
    ensures out { out.new ≡ put_within out.old at (decimal width value) }
{
    if at <= out.len() && width <= out.len() - at {
        write_value(&mut out[at..at + width], value);
    }
}

// The bytes of n in two columns: its tens, a blank where there are none, and its ones; of more digits the last two.
pub fn two_columns(n: u32) -> [u8; 2]
    ensures columns { result ≡ plain 2 32 n }
{
    // `write_digits` writes no zero before a digit: of 105 it is there before.
    let mut columns = [if n < 10 { b' ' } else { b'0' }; 2];
    write_digits(u64::from(n % 100), &mut columns, 2);
    columns
}

// n in two columns from `at` on, where both are there. Public, and kept as `write_decimal`, by which it would take twice as
// long.
pub fn write_two(out: &mut [u8], at: usize, n: u32)
    ensures out { out.new ≡ put_within out.old at (plain 2 32 n) }
{
    if at <= out.len() && 2 <= out.len() - at {
        out[at..at + 2].copy_from_slice(&two_columns(n));
    }
}

// The first `count` bytes of `to` become those of `from`, where both have as many. Public, and kept as `write_decimal`.
pub fn copy_bytes(from: &[u8], count: usize, to: &mut [u8])
    ensures to { to.new ≡ copied from.now count to.old }
{
    if from.len() < count {
        return;
    }
    if to.len() < count {
        return;
    }
    to[..count].copy_from_slice(&from[..count]);
}
