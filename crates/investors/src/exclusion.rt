// `investor_exclusion`: the checks of an order against the other live orders of its investor.
ghost use Rattle.std.specs.Prelude.{◌≡◌, not, ◌&&◌, ◌+◌, ◌≤◌, ◌==◌, length};
ghost use Rattle.laws.specs.Sums.{sum_below, only};
ghost use Rattle.laws.specs.Search.{some};
ghost use Rattle.laws.specs.Lists.{same};
ghost use Rattle.credit_math.specs.Limits.{max_orders};
ghost use Rattle.book.specs.Book.{order_in, is_live, is_buy, no_investor};
ghost use Rattle.investors.specs.Exclusion.{is_other, investor_exclusion};
ghost use Rattle.investors.specs.Excluded.{exclusion_in};

use book::Order;
use credit_math::MAX_ORDERS;
use wide::Wide;

// Why the investor's other orders exclude an order.
#[derive(Clone, Copy, Debug, PartialEq, Eq)]
pub enum Exclusion {
    SelfTrade = 7,
    InvestorCapExceeded = 8,
}

// The exclusion of order `index`, whose investor is `id`. A count above the limit is read as the limit.
pub fn investor_exclusion(
    orders: &[Order; MAX_ORDERS],
    order_count: usize,
    index: usize,
    id: &[u8; 16],
    max_cash: u64,
) -> Option<Exclusion>
    ensures { exclusion_in result ≡ investor_exclusion orders.now order_count index id.now max_cash }
{
    let counted = &orders[..order_count.min(MAX_ORDERS)];
    let (side, escrowed) = match orders.get(index) {
        Some(own) => (own.side, own.escrowed),
        None => (0, 0),
    };
    if trades_itself(counted, index, id, side) {
        return Some(Exclusion::SelfTrade);
    }
    if side != 0 {
        return None;
    }
    if Wide::from(max_cash) < cash_of(counted, index, id, escrowed) {
        return Some(Exclusion::InvestorCapExceeded);
    }
    None
}

// Whether the investor stands on the other side too.
#[tactic(auto, using(laws::proofs::Search::some_start, laws::proofs::Search::some_more), unfolding(crate::specs::Exclusion::is_other))]
fn trades_itself(orders: &[Order], index: usize, id: &[u8; 16], side: u8) -> bool
    requires { length orders.now ≤ max_orders }
    ensures { result ≡ some (λ j. is_other orders.now (length orders.now) index id.now j && not ((order_in orders.now j).side == side)) (length orders.now) }
{
    for (j, o) in orders.iter().enumerate() {
        if is_other(o, j, index, id) && o.side != side {
            return true;
        }
    }
    false
}

// The escrow of the order itself, `escrowed`, and of the investor's other buys.
fn cash_of(orders: &[Order], index: usize, id: &[u8; 16], escrowed: u64) -> Wide
    requires { length orders.now ≤ max_orders }
    ensures { result ≡ escrowed + sum_below (λ j. only (is_other orders.now (length orders.now) index id.now j && is_buy (order_in orders.now j)) (order_in orders.now j).escrowed) (length orders.now) }
{
    let mut sum = Wide::from(escrowed);
    for (j, o) in orders.iter().enumerate() {
        if is_other(o, j, index, id) && o.side == 0 {
            sum = sum.wrapping_add(o.escrowed);
        }
    }
    sum
}

// Whether o, order j, is another live order of the investor.
fn is_other(o: &Order, j: usize, index: usize, id: &[u8; 16]) -> bool
    ensures { result ≡ not (j == index) && is_live o.now && not (same o.now.investor_id no_investor) && same o.now.investor_id id.now }
{
    j != index && o.is_live() && o.investor_id != [0; 16] && o.investor_id == *id
}
