// Each limit's totals, added up anew.
ghost use Rattle.std.specs.Prelude.{◌≡◌, if◌then◌else◌, not, ◌&&◌, nat_le};
ghost use Rattle.laws.specs.Sums.{only};
ghost use Rattle.price_by_order.specs.Steps.{side_total, Found};

use credit_math::allocation::{Quote, better_of, quote_of};
use credit_math::orders::Orders;
use credit_math::table::Totals;
use wide::Wide;

// Each order's limit in turn, with the best so far; below the reserve it is passed over with no quote.
#[tactic(auto, using(crate::proofs::Walk::searching, crate::proofs::Walk::searched))]
pub fn best_quote(orders: &Orders, reserve: u64, reference: u64) -> Option<Quote>
    ensures { Found orders.now.is_buy.now orders.now.limits.now orders.now.qtys.now reserve reference result }
{
    let mut best = None;
    for &limit in orders.limits {
        if reserve <= limit {
            let row = Totals {
                limit,
                buys: side_total(orders, true, limit),
                sells: side_total(orders, false, limit),
            };
            best = better_of(best, quote_of(&row, reference), reserve);
        }
    }
    best
}

// The total of a side at p.
fn side_total(orders: &Orders, buys: bool, p: u64) -> Wide
    ensures { result ≡ side_total orders.now.is_buy.now orders.now.limits.now orders.now.qtys.now buys p }
{
    let mut sum = Wide::from(0);
    for i in 0..orders.is_buy.len() {
        sum = sum.wrapping_add(added_at(
            buys,
            orders.is_buy[i],
            orders.limits[i],
            orders.qtys[i],
            p,
        ));
    }
    sum
}

// What an order adds to a side's total at p: buyers take part at or below their limit, sellers at or above it.
fn added_at(buys: bool, is_buy: bool, limit: u64, qty: u64, p: u64) -> u64
    ensures { result ≡ only (if buys then is_buy && nat_le p limit else not is_buy && nat_le limit p) qty }
{
    let trades = if buys {
        is_buy & (p <= limit)
    } else {
        !is_buy & (limit <= p)
    };
    if trades { qty } else { 0 }
}
