// Decimals read strictly from columns, for any width. The call answers for every text. What it means: specs/.
#![tactic(auto)]

ghost use Rattle.std.specs.Prelude.{◌≡◌};
ghost use Rattle.text_reading.specs.Reading.{parse};

use crate::reading::value_of;

mod reading;

// The value that the columns are the text of, if there is one from `lowest` to `highest`.
pub fn read_decimal(columns: &[u8], lowest: i64, highest: i64) -> Option<i64>
    ensures answer { result ≡ parse lowest highest columns.now }
{
    value_of(columns).filter(|value| (lowest..=highest).contains(value))
}
