// Escrow cover: whether an order's escrow pays for it, as the source's `reveal` asks. What a header asks of the escrows in its file is `None` for `SH`, which
// asks nothing, and `Some(decimals)` for `SI`: that they cover their orders, at so many decimals.
#![tactic(auto)]

ghost use Rattle.std.specs.Prelude.{◌≡◌, ◌^◌, ◌≤◌};
ghost use Rattle.refusals.specs.Number.{refusal_in};
ghost use Rattle.escrow.specs.Cover.{max_decimals, gross, covered, decimals_refusal, cover_refusal};

use book::Row;
use refusals::Refusal;
use wide::Wide;

pub mod claims;

// The most decimals that a header may name: 10 to this power still fits 64 bits.
pub const MAX_DECIMALS: u8 = 19;

// 4 decimals outside their values.
#[tactic(auto, unfolding(laws::specs::Checks::unless, crate::specs::Cover::decimals_refusal))]
pub fn decimals_refusal(cover: Option<u8>) -> Result<(), Refusal>
    ensures { refusal_in result ≡ decimals_refusal cover }
{
    match cover {
        None => Ok(()),
        Some(decimals) => Refusal::BadField.unless(decimals <= MAX_DECIMALS),
    }
}

// 31 an order that its escrow does not cover.
#[tactic(auto, unfolding(laws::specs::Checks::unless, crate::specs::Cover::cover_refusal))]
pub fn cover_refusal(cover: Option<u8>, row: &Row) -> Result<(), Refusal>
    ensures { refusal_in result ≡ cover_refusal cover row.now }
{
    match cover {
        None => Ok(()),
        Some(decimals) => Refusal::ExceedsEscrow.unless(covered(decimals, row)),
    }
}

// A buy's amount at its limit, or a sell's quantity, is at most the escrow. An unrevealed order has nothing to test.
#[tactic(auto, unfolding(crate::specs::Cover::covered, crate::specs::Cover::needed))]
fn covered(decimals: u8, row: &Row) -> bool
    ensures { result ≡ covered decimals row.now }
{
    if !row.revealed {
        return true;
    }
    if row.side == 0 {
        return gross(row.qty, row.limit, decimals) <= Wide::from(row.escrowed);
    }
    row.qty <= row.escrowed
}

// quantity × price / 10^decimals, rounded up, for any number of decimals: at most nineteen at a time, since rounding up twice is rounding up once.
#[tactic(auto, unfolding(crate::specs::Cover::gross))]
fn gross(qty: u64, price: u64, decimals: u8) -> Wide
    ensures { result ≡ gross qty price decimals }
{
    let mut amount = Wide::product(qty, price);
    let mut left = decimals;
    while 0 < left {
        let some = left.min(MAX_DECIMALS);
        amount = credit_math::ceil_div(amount, Wide::from(power_of_ten(some)));
        left -= some;
    }
    amount
}

#[tactic(auto, using(crate::proofs::Powers::ten_fits))]
fn power_of_ten(decimals: u8) -> u64
    requires { decimals ≤ max_decimals }
    ensures { result ≡ 10 ^ decimals }
{
    let mut power = 1u64;
    for _ in 0..decimals {
        power *= 10;
    }
    power
}
