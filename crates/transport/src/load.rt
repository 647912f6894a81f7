// Load: a whole number of either sign is added to one amount.
ghost use Rattle.std.specs.Prelude.{◌≡◌, ◌<◌, ◌+ℤ◌};
ghost use Rattle.std.specs.Bool.{then_some};
ghost use Rattle.stoichiometry.specs.Substances.{substances};
ghost use Rattle.river.specs.Rivers.{amount_fits};

use river::amount_fits;

// amount + added, where that is in the bounds of the substance at place s. A sum that does not fit 64 bits is in none.
#[tactic(auto, using(crate::proofs::LoadLaws::beyond_machine))]
pub(crate) fn sum(s: usize, amount: i64, added: i64) -> Option<i64>
    requires substance { s < substances }
    ensures { result ≡ then_some (amount_fits s (amount +ℤ added)) (amount +ℤ added) }
{
    let sum = amount.checked_add(added);
    sum.filter(|sum| amount_fits(s, *sum))
}
