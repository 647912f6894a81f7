// Check 3, on the rows of a set and E of each process.
ghost use Rattle.std.specs.Prelude.{◌≡◌, ◌<◌, pos};
ghost use Rattle.std.specs.Int.Signed.{lt_z};
ghost use Rattle.numeric.specs.Check.{all_of};
ghost use Rattle.stoichiometry.specs.Rows.{processes};
ghost use Rattle.stoichiometry.specs.Substances.{substances};
ghost use Rattle.rows.specs.Inner.Code.{spares, takes_up_nothing, consume_o2, wrong_of};

use stoichiometry::{ENTRIES, PROCESSES, SUBSTANCES, place};

// The process of the row takes up nothing of the substance at place s.
fn spares(row: &[i64; SUBSTANCES], s: usize) -> bool
    requires { s < substances }
    ensures { result ≡ spares row.now s }
{
    0 <= row[s]
}

// The process of the row takes up no NH4, HPO4, O2 or HCO3.
fn takes_up_nothing(row: &[i64; SUBSTANCES]) -> bool
    ensures { result ≡ takes_up_nothing row.now }
{
    spares(row, place::NH4)
        && spares(row, place::HPO4)
        && spares(row, place::O2)
        && spares(row, place::HCO3)
}

#[tactic(auto, unfolding(numeric::specs::Check::all_of))]
fn all_negative(changes: &[i64]) -> bool
    ensures { result ≡ all_of (λ e. lt_z e (pos 0)) changes.now }
{
    changes.iter().all(|e| *e < 0)
}

// E of the processes 1 to 10 and 13 is below zero.
#[tactic(auto, unfolding(crate::specs::Inner::Code::consume_o2))]
fn consume_o2(oxygen: &[i64; PROCESSES]) -> bool
    ensures { result ≡ consume_o2 oxygen.now }
{
    all_negative(&oxygen[..10]) && oxygen[12] < 0
}

// Check 3: E of a process 1 to 10 or 13 is not below zero, or 14 or 15 takes up NH4, HPO4, O2 or HCO3. No loop goes
// through a list of what is asked of each process: then no place of an entry is a constant, and `rows_of` takes 1.15 times
// as long.
#[tactic(auto, unfolding(crate::specs::Inner::Code::wrong_of))]
pub(crate) fn rows_wrong(entries: &[i64; ENTRIES], oxygen: &[i64; PROCESSES]) -> bool
    ensures { result ≡ wrong_of entries.now oxygen.now }
{
    let (rows, _) = entries.as_chunks::<SUBSTANCES>();
    !(consume_o2(oxygen) && takes_up_nothing(&rows[13]) && takes_up_nothing(&rows[14]))
}
