// The rows of a set, written over entries that are lent: checks 1 to 3 in their order, and the zeros that a refusal leaves.
ghost use Rattle.std.specs.Prelude.{◌≡◌, Err};
ghost use Rattle.rows.specs.Answers.{check_answer};
ghost use Rattle.rows.specs.Inner.Written.{refused_entries, entries_written};

use crate::check_three::rows_wrong;
use crate::processes::RangedSet;
use stoichiometry::{ENTRIES, PROCESSES, Refusal, Set};

// Writes all rows of a set over the entries. Refuses with 1, 2 and 3, and leaves zeros then.
pub(crate) fn write_rows(set: &Set, entries: &mut [i64; ENTRIES]) -> Result<(), Refusal>
    ensures answer { result ≡ check_answer set.now }
    ensures entries_after { entries.new ≡ entries_written set.now }
{
    if set.fractions_wrong() {
        return refused(Refusal::Fractions, entries);
    }
    if set.figures_wrong() {
        return refused(Refusal::Figures, entries);
    }
    let mut oxygen = [0; PROCESSES];
    let ranged = RangedSet { set };
    ranged.fill(entries, &mut oxygen);
    if rows_wrong(entries, &oxygen) {
        return refused(Refusal::Rows, entries);
    }
    Ok(())
}

// What a refusal answers, and the zeros that it leaves. Every refusal writes them: where check 3's alone does, and the
// entries have to be lent as zeros, rows take 1.12 times as long.
fn refused(refusal: Refusal, entries: &mut [i64; ENTRIES]) -> Result<(), Refusal>
    ensures answer { result ≡ Err refusal }
    ensures entries_after { entries.new ≡ refused_entries }
{
    *entries = [0; ENTRIES];
    Err(refusal)
}
