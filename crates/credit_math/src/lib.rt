// The source's `credit-math`: floor division, the price search, pro-rata.
#![tactic(auto)]

ghost use Rattle.std.specs.Prelude.{◌≡◌};
ghost use Rattle.wide.specs.Divided.{Divided};
ghost use Rattle.credit_math.specs.Rounding.{ceil_div};

use wide::{Division, Wide};

pub mod allocation;
pub mod claims;
pub mod orders;
mod pro_rata;
pub mod side_totals;
pub mod table;

// The most orders of a book: the limit of every list here.
pub const MAX_ORDERS: usize = 16;

// Division rounded down, against the initiator, with its remainder. By 0 the quotient is 0; no caller divides by 0.
pub fn div_round(a: Wide, denominator: Wide) -> Division
    ensures { Divided a denominator result }
{
    a.div_rem(denominator)
}

// Division rounded up. By 0 the quotient counts as 0 and the remainder as a; no caller divides by 0.
#[tactic(auto, unfolding(crate::specs::Rounding::ceil_div, wide::specs::Value::modulus))]
pub fn ceil_div(a: Wide, b: Wide) -> Wide
    ensures { result ≡ ceil_div a b }
{
    let d = div_round(a, b);
    if d.rest.is_zero() {
        return d.quotient;
    }
    d.quotient.wrapping_add(1)
}
