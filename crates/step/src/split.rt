// Whole batches and new carries from extents and old carries, and check 7.
ghost use Rattle.std.specs.Prelude.{◌≡◌, ◌+◌, ◌/◌, ◌%◌, ◌≤◌, ◌↔◌, pos, IsTrue};
ghost use Rattle.numeric.specs.Table.{tab};
ghost use Rattle.stoichiometry.specs.Rows.{processes};
ghost use Rattle.river.specs.Rivers.{most_carry};
ghost use Rattle.step.specs.Inner.Stepping.{most_extent, ExtentsFit, CarriesFit, whole_of, rest_of, Pass};

use river::River;
use stoichiometry::PROCESSES;

// One batch, in millionths.
const BATCH: u64 = 1000000;

// A carry with an extent added: its whole batches, and the carry that is left.
fn divided(carry: u32, extent: u64) -> (i64, u32)
    requires { (carry ≤ most_carry) × (extent ≤ most_extent) }
    ensures { result ≡ (pos ((carry + extent) / 1000000), (carry + extent) % 1000000) }
{
    let carried = carry as u64 + extent;
    ((carried / BATCH) as i64, (carried % BATCH) as u32)
}

// Writes the whole batches and the new carries of one cell, into arrays that are lent: no copy is made that is not
// needed. Where they are answered they are copied, and a step takes 1.01 times as many instructions. Written by place:
// what a `zip` with `iter_mut` writes the proof does not learn.
pub(crate) fn split(
    extents: &[u64; PROCESSES],
    carries: &[u32; PROCESSES],
    whole: &mut [i64; PROCESSES],
    rest: &mut [u32; PROCESSES],
)
    requires { ExtentsFit extents.now × CarriesFit carries.now }
    ensures whole_after { whole.new ≡ tab processes (whole_of extents.now carries.now) }
    ensures rest_after { rest.new ≡ tab processes (rest_of extents.now carries.now) }
{
    for (p, (extent, carry)) in extents.iter().zip(carries).enumerate() {
        let (batches, left) = divided(*carry, *extent);
        whole[p] = batches;
        rest[p] = left;
    }
}

// Check 7: no process of a cell reaches more than 100,000 whole batches.
pub(crate) fn batches_fit(whole: &[i64; PROCESSES]) -> bool
    ensures { IsTrue result ↔ Pass whole.now }
{
    whole.iter().all(|batches| *batches <= River::BATCHES_MOST)
}
