// Flow: a part of each amount passes from its cell to the next, and from the last cell out of the river.
ghost use Rattle.std.specs.Prelude.{◌≡◌, ◌≤◌, ◌*◌, ◌/◌, nat_abs};
ghost use Rattle.stoichiometry.specs.Substances.{most_net};
ghost use Rattle.river.specs.Rivers.{most_cells};
ghost use Rattle.transport.specs.Flow.{passing, left_of, moved_of};
ghost use Rattle.transport.specs.Inner.Stages.{AmountsWithin};

use crate::Flowed;
use river::AMOUNTS;
use stoichiometry::SUBSTANCES;

// Parts are ten-thousandths: the most is the whole.
const WHOLE: u64 = Flowed::PART_MOST as u64;

// The part of a flow, ten-thousandths.
#[derive(Clone, Copy)]
pub(crate) struct Part {
    pub value: u64,
    ghost most: { value ≤ 10000 },
}

impl Part {
    // The part of a size, rounded down. The size is divided first, since size × part does not fit.
    #[tactic(auto, using(crate::proofs::FlowLaws::share_parts))]
    fn of(self, size: u64) -> u64
        ensures { result ≡ size * self.value / 10000 }
    {
        size / WHOLE * self.value + size % WHOLE * self.value / WHOLE
    }

    // What passes of one amount, rounded toward zero: the part of its size, with its sign. Each sign has its own way:
    // with `unsigned_abs` and one way for both, a flow takes a tenth longer.
    fn passed(self, amount: i64) -> i64
        requires { nat_abs amount ≤ most_net }
        ensures { result ≡ passing self.value amount }
    {
        if amount < 0 {
            return -(self.of(-amount as u64) as i64);
        }
        self.of(amount as u64) as i64
    }

    // What leaves each cell, written over what `left` has. Written by place: what a `zip` with `iter_mut` writes the
    // proof does not learn, and with an array answered by `from_fn` a flow takes 1.02 of the reference's time for 0.90.
    pub(crate) fn leave_cells(self, amounts: &[i64; AMOUNTS], left: &mut [i64; AMOUNTS])
        requires { AmountsWithin most_net amounts.now }
        ensures { left.new ≡ left_of self.value amounts.now }
    {
        for (k, amount) in amounts.iter().enumerate() {
            left[k] = self.passed(*amount);
        }
    }
}

// The amounts after: what left is taken from each, and comes into the next cell. Nothing comes into the first cell, nor
// beyond the last. Written by place, as above: with `from_fn` the differences need a function of their own, for the
// proof, and a flow takes 6 % longer.
pub(crate) fn move_amounts(cells: usize, amounts: &mut [i64; AMOUNTS], left: &[i64; AMOUNTS])
    requires cells_in_bounds { (1 ≤ cells) × (cells ≤ most_cells) }
    requires amounts_within { AmountsWithin most_net amounts.old × AmountsWithin most_net left.now }
    ensures { amounts.new ≡ moved_of cells amounts.old left.now }
{
    for (k, part) in left.iter().enumerate() {
        amounts[k] -= *part;
    }
    for (j, came) in left[..(cells - 1) * SUBSTANCES].iter().enumerate() {
        amounts[SUBSTANCES + j] += *came;
    }
}
