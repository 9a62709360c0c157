// What is proved of the numbers. The contract here is a theorem, and holds whoever calls the function, which does nothing: so the check of this
// crate is not passed while it is unproved.
ghost use Rattle.std.specs.Prelude.{◌≡◌, ℕ, ◌<◌};
ghost use Rattle.std.specs.Ordering.{nat_cmp};
ghost use Rattle.wide.specs.Value.{modulus};

use crate::Wide;

// The derived order is that of the numbers.
pub fn order_is_right()
    ensures { (a b : ℕ) → a < modulus → b < modulus → ⟦<Wide as Ord>⟧.cmp a b ≡ nat_cmp a b }
{}
