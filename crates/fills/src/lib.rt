// The number of fills, before the crank: from the lots alone.
#![tactic(auto)]

ghost use Rattle.std.specs.Prelude.{◌≡◌};
ghost use Rattle.refusals.specs.Number.{refusal_in};
ghost use Rattle.fills.specs.FillCount.{fill_count_refusal, fill_count_answer};

use credit_math::MAX_ORDERS;
use lines::Lots;
use refusals::Refusal;

pub mod claims;
mod lines;

// A refusal or 0, and the number of fills, 0 with a refusal.
#[repr(C)]
#[derive(Clone, Copy, Debug, PartialEq, Eq)]
pub struct FillCount {
    pub refusal: u8,
    pub count: u64,
}

// The number of fills that the cranks will make, from the lots with their sides in book order.
#[unsafe(no_mangle)]
#[tactic(auto, unfolding(crate::specs::FillCount::fill_count_refusal, crate::specs::FillCount::fill_count_answer, laws::specs::Checks::unless, laws::specs::Checks::first_of))]
pub extern "C" fn fill_count(lots: &[u64], sides: &[u8]) -> FillCount
    ensures { result ≡ fill_count_answer lots.now sides.now }
{
    match fill_count_refusal(lots, sides) {
        Err(refusal) => FillCount {
            refusal: refusal.number(),
            count: 0,
        },
        Ok(()) => FillCount {
            refusal: 0,
            count: Lots { lots, sides }.counted(),
        },
    }
}

// 30, then 4.
#[tactic(auto, unfolding(crate::specs::FillCount::fill_count_refusal, laws::specs::Checks::unless, laws::specs::Checks::first_of))]
fn fill_count_refusal(lots: &[u64], sides: &[u8]) -> Result<(), Refusal>
    ensures { refusal_in result ≡ fill_count_refusal lots.now sides.now }
{
    Refusal::BadLength.unless(lots.len() <= MAX_ORDERS)?;
    Refusal::BadLength.unless(sides.len() == lots.len())?;
    Refusal::BadField.unless(sides.iter().all(|&side| side <= 1))
}
