// Whole numbers: definitions (specs/) and laws (proofs/) that the crates above share, the conjunction of two tests, a
// number from low to high, and the size of a number. The three calls are public, so they stay as names over the library's.
#![tactic(auto)]

ghost use Rattle.std.specs.Prelude.{◌≡◌, ◌&&◌, nat_abs};
ghost use Rattle.numeric.specs.Check.{in_range};

// Both tests hold.
pub fn both(a: bool, b: bool) -> bool
    ensures { result ≡ (a && b) }
{
    a && b
}

// A number is from low to high, both included.
pub fn in_range(low: u32, high: u32, x: u32) -> bool
    ensures { result ≡ in_range low high x }
{
    (low..=high).contains(&x)
}

// The number without its sign.
pub fn magnitude(value: i64) -> u64
    ensures { result ≡ nat_abs value }
{
    value.unsigned_abs()
}
