// The source's `allocation`: uniform-price clearing and pro-rata lots, on parallel slices of 64-bit numbers.
ghost use Rattle.std.specs.Prelude.{◌≡◌, ◌==◌, length, nat_lt};
ghost use Rattle.refusals.specs.Number.{refusal_in};
ghost use Rattle.laws.specs.Lex.{lex};
ghost use Rattle.wide.specs.Value.{apart};
ghost use Rattle.credit_math.specs.Price.{found, find_uniform_clear_price};
ghost use Rattle.credit_math.specs.ProRata.{share, remainder, pro_rata_refusal, allocate_pro_rata};
ghost use Rattle.credit_math.specs.Steps.{QuoteOf, after, Searched};

use crate::MAX_ORDERS;
use crate::orders::Orders;
use crate::pro_rata::{Sharing, sum_of};
use crate::side_totals::price_refusal;
use crate::table::{SideTotals, Totals};
use refusals::Refusal;
use std::cmp::Reverse;
use wide::{Division, Wide};

// A successful cross at a single price.
#[derive(Clone, Copy, Debug, PartialEq, Eq)]
pub struct ClearResult {
    pub clear_price: u64,
    pub executed_qty: Wide,
}

// The best price of at most 16 orders by volume, imbalance, nearness to the reference and lowness.
#[tactic(auto, unfolding(crate::specs::Price::find_uniform_clear_price, crate::specs::Price::price_refusal, laws::specs::Checks::unless, laws::specs::Checks::first_of))]
pub fn find_uniform_clear_price(
    is_buy: &[bool],
    limits: &[u64],
    qtys: &[u64],
    reserve: u64,
    reference: u64,
) -> Result<Option<ClearResult>, Refusal>
    ensures { found result ≡ find_uniform_clear_price is_buy.now limits.now qtys.now reserve reference }
{
    price_refusal(is_buy, limits, qtys)?;
    let orders = Orders {
        is_buy,
        limits,
        qtys,
    };
    let table = orders.running_sums();
    let Some(best) = best_quote(&table, reserve, reference) else {
        return Ok(None);
    };
    Ok(Some(ClearResult {
        clear_price: best.price,
        executed_qty: best.executed.0,
    }))
}

// A price with what decides between prices, in its order: of two quotes the lower is better.
#[derive(Clone, Copy, Debug, PartialEq, Eq, PartialOrd, Ord)]
pub struct Quote {
    pub executed: Reverse<Wide>,
    pub imbalance: Wide,
    pub distance: u64,
    pub price: u64,
}

// Each row of the table in turn, with the best so far.
fn best_quote(table: &SideTotals, reserve: u64, reference: u64) -> Option<Quote>
    ensures { Searched table.now reserve reference result }
{
    let mut best = None;
    for row in &table.rows[..table.count] {
        best = better_of(best, quote_of(row, reference), reserve);
    }
    best
}

// The figures of a price, from the totals of its sides.
pub fn quote_of(row: &Totals, reference: u64) -> Quote
    ensures { QuoteOf row.now reference result }
{
    Quote {
        executed: Reverse(row.sells.min(row.buys)),
        imbalance: row.sells.abs_diff(row.buys),
        distance: row.limit.abs_diff(reference),
        price: row.limit,
    }
}

// The best so far, after a quote: below the reserve, or executing 0, it is passed over.
#[tactic(auto, unfolding(crate::specs::Steps::after))]
pub fn better_of(best: Option<Quote>, q: Quote, reserve: u64) -> Option<Quote>
    ensures { result ≡ after best q reserve }
{
    if q.price < reserve {
        return best;
    }
    if q.executed.0 == Wide::from(0) {
        return best;
    }
    match best {
        Some(old) => Some(old.min(q)),
        None => Some(q),
    }
}

// Lots of a total over at most 16 quantities; a refusal leaves the output as it was.
#[tactic(auto, using(crate::proofs::Sorted::lots_table, std::proofs::lemmas::Bool::Decides::nat_tests), unfolding(laws::specs::Checks::unless, laws::specs::Checks::first_of, crate::specs::ProRata::pro_rata_refusal, crate::specs::ProRata::allocate_pro_rata))]
pub fn allocate_pro_rata(
    total: u64,
    ids: &[u64],
    qtys: &[u64],
    out: &mut [u64],
) -> Result<(), Refusal>
    ensures refusal { refusal_in result ≡ pro_rata_refusal ids.now qtys.now (length out.old) total }
    ensures lots { out.new ≡ allocate_pro_rata ids.now qtys.now total out.old }
{
    Refusal::BadLength.unless(qtys.len() <= MAX_ORDERS)?;
    Refusal::BadLength.unless(ids.len() == qtys.len())?;
    Refusal::BadLength.unless(out.len() == qtys.len())?;
    let sum = sum_of(qtys);
    if sum < Wide::from(total) {
        Refusal::InvalidInput.unless(!sum.is_zero())?;
        return Err(Refusal::OverAllocation);
    }
    let sharing = Sharing {
        total,
        sum,
        ids,
        qtys,
    };
    sharing.write_lots(out);
    Ok(())
}

// The share of a quantity, rounded down, with its remainder. Pro-rata alone goes by it, with a total within the sum; it is public for the comparison.
#[tactic(auto, unfolding(crate::specs::ProRata::share, crate::specs::ProRata::remainder))]
pub fn floor_share(total: u64, qty: u64, sum_qty: Wide) -> Division
    ensures quotient { result.quotient ≡ share total sum_qty qty }
    ensures rest { result.rest ≡ remainder total sum_qty qty }
{
    if total == 0 {
        return exact_share(0);
    }
    // Nothing to divide: a quantity of 0 takes 0, and of the whole sum each takes its quantity.
    if qty == 0 || sum_qty == Wide::from(total) {
        return exact_share(qty);
    }
    crate::div_round(Wide::product(total, qty), sum_qty)
}

// A share that the rounding takes nothing of.
fn exact_share(quotient: u64) -> Division
    ensures { result ≡ record { quotient = quotient; rest = 0 } }
{
    Division {
        quotient: Wide::from(quotient),
        rest: Wide::from(0),
    }
}
