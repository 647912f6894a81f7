// A river that check 4 passes, as a type, so that what goes on with the river need not ask for it.
ghost use Rattle.std.specs.Prelude.{◌≡◌, false};
ghost use Rattle.river.specs.Rivers.{river_wrong};

use crate::River;

#[derive(Clone, Copy)]
pub struct Checked<'a> {
    pub river: &'a River,
    ghost right: { river_wrong river.now ≡ false },
}
