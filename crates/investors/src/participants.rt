// `distinct_participants`: who traded, for the print.
ghost use Rattle.std.specs.Prelude.{◌≡◌, ◌≤◌, length};
ghost use Rattle.laws.specs.Bits.{is_set};
ghost use Rattle.credit_math.specs.Limits.{max_orders};
ghost use Rattle.investors.specs.Participants.{participant, distinct_participants};

use crate::seen::{Participant, Seen};
use book::{Fill, MAX_FILLS, Order};
use credit_math::MAX_ORDERS;

// Distinct participants over the fills that moved. A count above its limit is read as the limit.
#[tactic(auto, using(crate::proofs::Fills::seen_more, crate::proofs::FirstOrder::participant_counted, std::proofs::lemmas::Bool::Decides::nat_tests, std::proofs::lemmas::Grind::common_steps), unfolding(crate::specs::Participants::distinct_participants, crate::specs::Participants::seen))]
pub fn distinct_participants(
    orders: &[Order; MAX_ORDERS],
    order_count: usize,
    fills: &[Fill; MAX_FILLS],
    fill_count: usize,
    skipped: u32,
) -> u64
    ensures { result ≡ distinct_participants orders.now order_count fills.now skipped fill_count }
{
    let counted = &orders[..order_count.min(MAX_ORDERS)];
    let mut seen = Seen::new();
    for (i, f) in fills[..fill_count.min(MAX_FILLS)].iter().enumerate() {
        if f.qty != 0 && !is_skipped(skipped, i as u32) {
            seen.note(participant(counted, &f.buyer));
            seen.note(participant(counted, &f.seller));
        }
    }
    seen.len() as u64
}

// Bit i of the skip word; a place past its width is not set.
#[tactic(auto, using(crate::proofs::Skipping::no_bit_past, std::proofs::lemmas::Bool::Decides::nat_tests), unfolding(laws::specs::Bits::bit))]
pub fn is_skipped(skipped: u32, i: u32) -> bool
    ensures { result ≡ is_set skipped i }
{
    i < 32 && (skipped >> i) % 2 == 1
}

// Who a wallet counts as: by its first order, where it has one.
fn participant(orders: &[Order], wallet: &[u8; 32]) -> Participant
    requires { length orders.now ≤ max_orders }
    ensures { result ≡ participant orders.now (length orders.now) wallet.now }
{
    match orders.iter().find(|o| o.owner == *wallet) {
        Some(o) if o.investor_id != [0; 16] => Participant::Investor(o.investor_id),
        _ => Participant::Wallet(*wallet),
    }
}
