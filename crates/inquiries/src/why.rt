// Why an order got its lot.
ghost use Rattle.std.specs.Prelude.{◌≡◌, true, false, if◌then◌else◌, not, ◌&&◌, ◌+◌, ◌<◌, ◌≤◌, ◌==◌, Ok, IfOk, OnOk, nat_lt, nat_le};
ghost use Rattle.refusals.specs.Number.{refusal_in};
ghost use Rattle.laws.specs.Checks.{unless, ◌then◌};
ghost use Rattle.laws.specs.Sums.{sum_below, only, count};
ghost use Rattle.laws.specs.Lex.{lex};
ghost use Rattle.credit_math.specs.Limits.{max_orders};
ghost use Rattle.book.specs.Book.{order_in, is_live, is_buy};
ghost use Rattle.book.specs.Clear.{outcome_of, trades_at};
ghost use Rattle.auction_engine.specs.Call.{limits_refusal, fields_refusal};
ghost use Rattle.auction_engine.specs.Session.{allocating};
ghost use Rattle.auction_engine.specs.Clearing.{outcome, all_ready};
ghost use Rattle.inquiries.specs.Why.{gives_lots, out_of_price, cause_of, Told};
ghost use Rattle.inquiries.specs.Claims.{Asked};

use auction_engine::clearing::all_ready;
use auction_engine::first_checks::check;
use auction_engine::{Phase, Session};
use book::Order;
use book::clear::{Cross, compute_clear, trades_at};
use credit_math::allocation::floor_share;
use listing::causes::{Cause, put_cause};
use refusals::Refusal;
use wide::Wide;

// The line of the order's cause at the start of out, and its length; or a refusal, which leaves out as it was.
pub fn why(session: &Session, order: u64, out: &mut [u8]) -> Result<usize, Refusal>
    ensures { Told session.now order result out.old out.new }
{
    let found = found(session)?;
    let i = order as usize;
    check(Refusal::NoOrder, i < session.order_count)?;
    put_cause(out, order, cause_of(session, &found, i))
}

// What `compute_clear` finds. 9 and 4, as any library call; 10 in another phase, with a revealed order unscreened, or without lots.
#[tactic(auto, using(crate::proofs::Asking::asking))]
fn found(session: &Session) -> Result<Cross, Refusal>
    ensures refusal { refusal_in result ≡ (limits_refusal session.now then fields_refusal session.now)
        then unless (session.now.phase == allocating) 10
        then unless (all_ready session.now) 10
        then unless (gives_lots session.now) 10 }
    ensures few { OnOk result (session.now.order_count ≤ max_orders) }
    ensures found { IfOk result (λ found. outcome_of (Ok (Ok found)) ≡ outcome session.now) }
{
    session.checked()?;
    check(
        Refusal::WrongPhase,
        session.phase == Phase::Allocating as u8,
    )?;
    check(
        Refusal::WrongPhase,
        all_ready(&session.orders[..session.order_count]),
    )?;
    lots_found(session)
}

#[tactic(auto, unfolding(laws::specs::Checks::unless))]
fn lots_found(session: &Session) -> Result<Cross, Refusal>
    ensures refusal { refusal_in result ≡ unless (gives_lots session.now) 10 }
    ensures found { IfOk result (λ found. outcome_of (Ok (Ok found)) ≡ outcome session.now) }
{
    let (orders, n) = (&session.orders, session.order_count);
    match compute_clear(&session.params, &session.given, orders, n) {
        Ok(Ok(cross)) => Ok(cross),
        _ => Err(Refusal::WrongPhase),
    }
}

// The first cause that applies.
#[tactic(auto, using(crate::proofs::Asking::price_found), unfolding(crate::specs::Why::cause_of, crate::specs::Why::out_of_price))]
fn cause_of(session: &Session, found: &Cross, i: usize) -> Cause
    requires asked { Asked session.now }
    requires few { session.now.order_count ≤ max_orders }
    requires found { outcome_of (Ok (Ok found.now)) ≡ outcome session.now }
    requires here { i < session.now.order_count }
    ensures { result ≡ cause_of session.now i }
{
    let o = &session.orders[i];
    let (limit, price) = (o.limit, found.price);
    if !o.revealed {
        return Cause::Unrevealed;
    }
    if o.is_excluded() {
        return Cause::Excluded(o.exclusion);
    }
    if out_of_price(o, price) {
        return Cause::Priced { limit, price };
    }
    lot_cause(session, found, i)
}

// A live order that trades at the price: its lot is its share, or a unit more.
fn lot_cause(session: &Session, found: &Cross, i: usize) -> Cause
    requires asked { Asked session.now }
    requires few { session.now.order_count ≤ max_orders }
    requires found { outcome_of (Ok (Ok found.now)) ≡ outcome session.now }
    requires here { i < session.now.order_count }
    requires live { is_live (order_in session.now.orders i) ≡ true }
    requires in_price { out_of_price session.now i ≡ false }
    ensures { result ≡ cause_of session.now i }
{
    let (orders, n, price) = (&session.orders, session.order_count, found.price);
    let o = &orders[i];
    let lot = found.lots[i];
    let sum = sharing(orders, n, o.side == 0, price);
    if Wide::from(lot) <= floor_share(found.volume, o.qty, sum).quotient {
        return Cause::Share(lot);
    }
    let turn = turns_before(orders, n, price, i) + 1;
    Cause::Residue { lot, turn }
}

// Whether the limit lies on the wrong side of the price.
fn out_of_price(o: &Order, price: u64) -> bool
    ensures { result ≡ (if is_buy o.now then nat_lt o.now.limit price else nat_lt price o.now.limit) }
{
    if o.side == 0 {
        o.limit < price
    } else {
        price < o.limit
    }
}

// Whether an order shares the volume of a side at a price.
fn shares(o: &Order, buys: bool, price: u64) -> bool
    ensures { result ≡ is_live o.now && (if buys then is_buy o.now && nat_le price o.now.limit else not (is_buy o.now) && nat_le o.now.limit price) }
{
    o.is_live() && trades_at(buys, o.side == 0, o.limit, price)
}

// The quantities that share the volume of a side, added up.
#[tactic(auto, using(laws::proofs::Sums::sum_none, laws::proofs::Sums::sum_more), unfolding(wide::specs::Value::modulus, book::specs::Clear::trades_at))]
fn sharing(orders: &[Order; Session::MAX_ORDERS], n: usize, buys: bool, price: u64) -> Wide
    requires { n ≤ max_orders }
    ensures { result ≡ sum_below (λ j. only (is_live (order_in orders.now j) && trades_at orders.now n buys price j) (order_in orders.now j).qty) n }
{
    let mut sum = Wide::from(0);
    for j in 0..n {
        let o = &orders[j];
        if shares(o, buys, price) {
            sum = sum.wrapping_add(o.qty);
        }
    }
    sum
}

// How many that share the volume with order i have their turn before it: the larger quantity first, then the lower number.
#[tactic(auto, using(laws::proofs::Sums::sum_none, laws::proofs::Sums::sum_more, laws::proofs::Lex::lex_tests), unfolding(laws::specs::Sums::count, book::specs::Clear::trades_at))]
fn turns_before(orders: &[Order; Session::MAX_ORDERS], n: usize, price: u64, i: usize) -> u64
    requires few { n ≤ max_orders }
    requires here { i < n }
    ensures { result ≡ count (λ j. (is_live (order_in orders.now j) && trades_at orders.now n (is_buy (order_in orders.now i)) price j) && lex (order_in orders.now i).qty (order_in orders.now j).qty (nat_lt j i)) n }
{
    let own = &orders[i];
    let mut before = 0;
    for j in 0..n {
        let o = &orders[j];
        let earlier = (own.qty < o.qty) | ((own.qty == o.qty) & (j < i));
        before += u64::from(shares(o, own.side == 0, price) && earlier);
    }
    before
}
