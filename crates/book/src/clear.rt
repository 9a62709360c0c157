// `compute_clear`: the live orders gathered, the price, and the lots.
ghost use Rattle.std.specs.Prelude.{◌≡◌, if◌then◌else◌, not, ◌&&◌, ◌≤◌, ◌<◌, nat_le, length, slice_index, ℕ};
ghost use Rattle.credit_math.specs.Limits.{max_orders};
ghost use Rattle.book.specs.Clear.{stored, floor_of, outcome_of, compute_clear};
ghost use Rattle.book.specs.Gathered.{Gathered, Cleared, Priced, Allocated, Allotted, Trading};

pub use crate::gathered::{Live, Side};
use crate::{Given, Order, Params};
use credit_math::MAX_ORDERS;
use credit_math::allocation::{allocate_pro_rata, find_uniform_clear_price};
use refusals::Refusal;
use wide::Wide;

// Why a session fails: a clear that finds no price, or the deadline.
#[derive(Clone, Copy, Debug, PartialEq, Eq)]
pub enum Failure {
    TooFewReveals = 1,
    NoCross = 2,
    MarkUnavailable = 3,
    Deadline = 4,
}

// A price with volume and lots by order number.
#[derive(Clone, Copy, Debug, PartialEq, Eq)]
pub struct Cross {
    pub price: u64,
    pub volume: u64,
    pub lots: [u64; MAX_ORDERS],
}

// What a clear finds where nothing refuses it.
pub type Outcome = Result<Cross, Failure>;

// The live orders among the first n. A count above the limit is read as the limit.
#[tactic(auto, using(crate::proofs::Live::first_live, std::proofs::lemmas::Bool::Decides::nat_tests), unfolding(crate::specs::Clear::compute_clear))]
pub fn compute_clear(
    p: &Params,
    g: &Given,
    orders: &[Order; MAX_ORDERS],
    n: usize,
) -> Result<Outcome, Refusal>
    ensures { outcome_of result ≡ compute_clear p.now g.now orders.now n }
{
    let live = live_orders(&orders[..n.min(MAX_ORDERS)]);
    if live.count < usize::from(p.min_reveals) {
        return Ok(Err(Failure::TooFewReveals));
    }
    if p.forced | g.mark {
        return live.clear(floor_of(p, g), g.reference);
    }
    Ok(Err(Failure::MarkUnavailable))
}

// The reserve that the clear goes by: none in a forced sale.
#[tactic(auto, unfolding(crate::specs::Clear::floor_of))]
pub fn floor_of(p: &Params, g: &Given) -> u64
    ensures { result ≡ floor_of p.now g.now }
{
    if p.forced { 0 } else { g.reserve }
}

// Each order is written at the next place, and the place is kept where the order is live.
fn live_orders(orders: &[Order]) -> Live
    requires { length orders.now ≤ max_orders }
    ensures { Gathered orders.now (length orders.now) result }
{
    let mut numbers = [0; MAX_ORDERS];
    let mut is_buy = [false; MAX_ORDERS];
    let mut limits = [0; MAX_ORDERS];
    let mut qtys = [0; MAX_ORDERS];
    let mut count = 0;
    for (i, o) in orders.iter().enumerate() {
        numbers[count] = i as u64;
        is_buy[count] = o.side == 0;
        limits[count] = o.limit;
        qtys[count] = o.qty;
        count += usize::from(o.is_live());
    }
    Live {
        count,
        numbers,
        is_buy,
        limits,
        qtys,
    }
}

impl Live {
    // The clearing of the live orders.
    #[tactic(auto, unfolding(crate::specs::Clear::allotted, crate::specs::Clear::searched))]
    fn clear(&self, reserve: u64, reference: u64) -> Result<Outcome, Refusal>
        ensures { Cleared self.now reserve reference result }
    {
        let n = self.count;
        let found = find_uniform_clear_price(
            &self.is_buy[..n],
            &self.limits[..n],
            &self.qtys[..n],
            reserve,
            reference,
        )?;
        match found {
            None => Ok(Err(Failure::NoCross)),
            Some(cross) => self.priced(cross.clear_price, cross.executed_qty),
        }
    }

    // Price, volume and lots, or 17 where the volume does not fit.
    #[tactic(auto, unfolding(crate::specs::Clear::allotted))]
    fn priced(&self, price: u64, executed: Wide) -> Result<Outcome, Refusal>
        ensures { Priced self.now price executed result }
    {
        let volume = u64::try_from(executed)?;
        let lots = self.lots_of(price, volume);
        Ok(Ok(Cross {
            price,
            volume,
            lots,
        }))
    }

    // Each order's lot by its number: first the buyers', then the sellers'.
    #[tactic(auto, unfolding(crate::specs::Clear::allocations))]
    fn lots_of(&self, p: u64, volume: u64) -> [u64; MAX_ORDERS]
        ensures { Allocated self.now p volume result }
    {
        let mut lots = [0; MAX_ORDERS];
        self.put_lots(true, p, volume, &mut lots);
        self.put_lots(false, p, volume, &mut lots);
        lots
    }

    // A side's lots, put at their order numbers.
    fn put_lots(&self, buys: bool, p: u64, volume: u64, out: &mut [u64; MAX_ORDERS])
        ensures { Allotted self.now buys p volume out.old out.new }
    {
        let side = self.side_orders(buys, p);
        let n = side.count;
        let mut lots = [0; MAX_ORDERS];
        let _ = allocate_pro_rata(volume, &side.numbers[..n], &side.qtys[..n], &mut lots[..n]);
        put(&side.numbers[..n], &lots[..n], out);
    }

    // A side's orders that trade at a price, one behind the other.
    fn side_orders(&self, buys: bool, p: u64) -> Side
        ensures { Trading self.now buys p result }
    {
        let mut numbers = [0; MAX_ORDERS];
        let mut qtys = [0; MAX_ORDERS];
        let mut count = 0;
        for i in 0..self.count {
            numbers[count] = self.numbers[i];
            qtys[count] = self.qtys[i];
            count += usize::from(trades_at(buys, self.is_buy[i], self.limits[i], p));
        }
        Side {
            count,
            numbers,
            qtys,
        }
    }
}

// Buyers take part at or below their limit, sellers at or above it.
pub fn trades_at(buys: bool, is_buy: bool, limit: u64, p: u64) -> bool
    ensures { result ≡ (if buys then is_buy && nat_le p limit else not is_buy && nat_le limit p) }
{
    if buys {
        is_buy & (p <= limit)
    } else {
        !is_buy & (limit <= p)
    }
}

// Values at the places that stand beside them.
#[tactic(auto, using(crate::proofs::Stored::stored_more, crate::proofs::Stored::all_stored))]
fn put(places: &[u64], values: &[u64], out: &mut [u64; MAX_ORDERS])
    requires inside { (i : ℕ) → i < length places.now → slice_index places.now i < max_orders }
    requires beside { length values.now ≡ length places.now }
    ensures { out.new ≡ stored places.now values.now out.old }
{
    for (i, &place) in places.iter().enumerate() {
        let at = place as usize;
        out[at] = values[i];
    }
}
