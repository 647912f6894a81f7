// Inner functions of the strict reader, in the order of the columns: blanks, a mark, digits. One pass over the bytes; a
// text that is no decimal is refused at the byte that shows it. The public call is at the crate's root. By hand, since
// `i64`'s `from_str` takes a plus, leading zeros and `-0`, wants a `str`, and takes no blanks: all would be tested before.
ghost use Rattle.std.specs.Prelude.{◌≡◌, ◌+◌, ◌-◌, ◌*◌, ◌≤◌, get_or};
ghost use Rattle.text_reading.specs.Reading.{signed, finish, value_of};
ghost use Rattle.text_reading.specs.Inner.Digits.{digits_seen};
ghost use Rattle.text_reading.specs.Inner.Stages.{LeadingBlanks, DigitsFrom};

// As many digits fit 64 bits; more are past the largest value that is read.
const DIGITS: usize = 19;

const LARGEST: u64 = 1_000_000_000_000_000_009;

// The digits' value with its mark, `-` or a blank. The mark is the byte itself: an enum for it would be made of that byte
// in `value_of`, and matched here and in `value_after` where the byte is compared, which is no plainer.
// `0i64.saturating_sub_unsigned(size)` would spare one of the two casts, and name a limit that is never met.
fn signed(mark: u8, size: u64) -> i64
    requires { size ≤ 1_000_000_000_000_000_009 }
    ensures { result ≡ signed mark size }
{
    if mark == b'-' {
        -(size as i64)
    } else {
        size as i64
    }
}

// The value of columns of this mark and digits of this value.
fn counted(mark: u8, size: u64) -> Option<i64>
    ensures { result ≡ finish (digits_seen mark size) }
{
    if size == 0 || size > LARGEST {
        return None;
    }
    Some(signed(mark, size))
}

// The value of a digit. In 64 bits from the start: with `b - b'0'` in 8 a record is read in a fifteenth more.
fn digit(b: u8) -> u64
    requires { (48 ≤ b) × (b ≤ 57) }
    ensures { result ≡ b - 48 }
{
    u64::from(b) - u64::from(b'0')
}

// The value of two digits.
fn pair(a: u8, b: u8) -> u64
    requires first_digit { (48 ≤ a) × (a ≤ 57) }
    requires second_digit { (48 ≤ b) × (b ≤ 57) }
    ensures { result ≡ (a - 48) * 10 + (b - 48) }
{
    digit(a) * 10 + digit(b)
}

// How many blanks the columns begin with.
fn blanks(columns: &[u8]) -> usize
    ensures { LeadingBlanks columns.now result }
{
    columns
        .iter()
        .position(|b| *b != b' ')
        .unwrap_or(columns.len())
}

// The value of columns whose blanks and mark end at `start`, where no zero stands: two digits a turn, then the last.
// By index: with `as_chunks` here, and `take_while` in `blanks`, a record is read in a third more.
fn digits_after(columns: &[u8], start: usize, mark: u8) -> Option<i64>
    requires digits_from { DigitsFrom columns.now start mark }
    requires no_leading_zero { get_or columns.now start 0 ≡ 48 → ⊥ }
    ensures { result ≡ value_of columns.now }
{
    let end = columns.len();
    if end - start > DIGITS {
        return None;
    }
    let mut size: u64 = 0;
    let mut k = start;
    while k + 1 < end {
        let a = columns[k];
        let b = columns[k + 1];
        if !a.is_ascii_digit() || !b.is_ascii_digit() {
            return None;
        }
        size = size * 100 + pair(a, b);
        k += 2;
    }
    if k < end {
        let last = columns[k];
        if !last.is_ascii_digit() {
            return None;
        }
        size = size * 10 + digit(last);
    }
    counted(mark, size)
}

// The value of columns whose blanks and mark end at `start`: a zero there has to stand alone, without a minus. The
// place is handed, here and above, and not the columns from it: the mark before it is part of the same columns.
fn value_after(columns: &[u8], start: usize, mark: u8) -> Option<i64>
    requires { DigitsFrom columns.now start mark }
    ensures { result ≡ value_of columns.now }
{
    let end = columns.len();
    if start == end {
        return None;
    }
    if columns[start] == b'0' {
        if start + 1 < end {
            return None;
        }
        if mark == b' ' {
            return Some(0);
        }
        return None;
    }
    digits_after(columns, start, mark)
}

// The value that the columns are the text of, if there is one.
pub(crate) fn value_of(columns: &[u8]) -> Option<i64>
    ensures { result ≡ value_of columns.now }
{
    let start = blanks(columns);
    if start < columns.len() && columns[start] == b'-' {
        value_after(columns, start + 1, b'-')
    } else {
        value_after(columns, start, b' ')
    }
}
