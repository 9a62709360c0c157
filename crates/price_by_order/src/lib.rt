// The price search as it was before the table of side totals: each limit's totals added up anew. For the benchmark alone, which sets it beside the one of now.
#![tactic(auto)]

ghost use Rattle.std.specs.Prelude.{◌≡◌};
ghost use Rattle.credit_math.specs.Price.{found, find_uniform_clear_price};
ghost use Rattle.order_slices.specs.Figures.{figures_of};

use credit_math::allocation::ClearResult;
use credit_math::orders::Orders;
use credit_math::side_totals::price_refusal;
use order_slices::Figures;
use refusals::Refusal;

mod search;

// The search behind the C boundary.
#[unsafe(no_mangle)]
pub extern "C" fn entry_price_by_order(
    is_buy: &[bool],
    limits: &[u64],
    qtys: &[u64],
    reserve: u64,
    reference: u64,
) -> Figures
    ensures { result ≡ figures_of (find_uniform_clear_price is_buy.now limits.now qtys.now reserve reference) }
{
    order_slices::figures_of(find_uniform_clear_price(is_buy, limits, qtys, reserve, reference))
}

// The search of now behind it.
#[unsafe(no_mangle)]
pub extern "C" fn entry_price_by_table(
    is_buy: &[bool],
    limits: &[u64],
    qtys: &[u64],
    reserve: u64,
    reference: u64,
) -> Figures
    ensures { result ≡ figures_of (find_uniform_clear_price is_buy.now limits.now qtys.now reserve reference) }
{
    order_slices::figures_of(credit_math::allocation::find_uniform_clear_price(
        is_buy, limits, qtys, reserve, reference,
    ))
}

// The best price of at most 16 orders by volume, imbalance, nearness to the reference and lowness.
#[tactic(auto, using(crate::proofs::Walk::by_order_is), unfolding(credit_math::specs::Price::find_uniform_clear_price, credit_math::specs::Price::price_refusal, laws::specs::Checks::unless, laws::specs::Checks::first_of))]
pub fn find_uniform_clear_price(
    is_buy: &[bool],
    limits: &[u64],
    qtys: &[u64],
    reserve: u64,
    reference: u64,
) -> Result<Option<ClearResult>, Refusal>
    ensures { found result ≡ find_uniform_clear_price is_buy.now limits.now qtys.now reserve reference }
{
    price_refusal(is_buy, limits, qtys)?;
    let orders = Orders {
        is_buy,
        limits,
        qtys,
    };
    let Some(best) = search::best_quote(&orders, reserve, reference) else {
        return Ok(None);
    };
    Ok(Some(ClearResult {
        clear_price: best.price,
        executed_qty: best.executed.0,
    }))
}
