// The source's public functions on a lent slice of records: each copies at most 16 entries into number arrays and calls its core, which decides.
#![tactic(auto)]

ghost use Rattle.std.specs.Prelude.{◌≡◌, length};
ghost use Rattle.credit_math.specs.Price.{found};
ghost use Rattle.order_slices.specs.Figures.{found_by_number, figures_of};
ghost use Rattle.order_slices.specs.Slices.{search_orders, bids_refusal, allocate_bids};

use credit_math::allocation::ClearResult;
use credit_math::{MAX_ORDERS, allocation};
use refusals::Refusal;

// The source's order, at 64 bits.
#[repr(C)]
#[derive(Clone, Copy, Debug, PartialEq, Eq)]
pub struct Order {
    pub bidder_id: u64,
    pub limit_price: u64,
    pub qty: u64,
    pub is_buy: bool,
}

// The source's pair of an id and a quantity.
#[repr(C)]
#[derive(Clone, Copy, Debug, PartialEq, Eq)]
pub struct Bid {
    pub id: u64,
    pub qty: u64,
}

// What the price search answers, as plain numbers: a refusal or 0, whether there is a cross, its price and its volume in two words.
#[repr(C)]
#[derive(Clone, Copy, Debug, Default, PartialEq, Eq)]
pub struct Figures {
    pub refusal: u8,
    pub crosses: bool,
    pub price: u64,
    pub volume_hi: u64,
    pub volume_lo: u64,
}

// The best price of at most 16 orders by volume, imbalance, nearness to the reference and lowness.
#[tactic(auto, unfolding(crate::specs::Slices::search_orders, credit_math::specs::Price::find_uniform_clear_price, credit_math::specs::Price::price_refusal, laws::specs::Checks::unless, laws::specs::Checks::first_of))]
#[unsafe(no_mangle)]
pub extern "C" fn find_uniform_clear_price(
    orders: &[Order],
    reserve: u64,
    reference: u64,
) -> Figures
    ensures { result ≡ figures_of (search_orders orders.now reserve reference) }
{
    if MAX_ORDERS < orders.len() {
        return figures_of(Err(Refusal::BadLength));
    }
    let n = orders.len();
    let mut is_buy = [false; MAX_ORDERS];
    let mut limits = [0; MAX_ORDERS];
    let mut qtys = [0; MAX_ORDERS];
    for (i, o) in orders.iter().enumerate() {
        is_buy[i] = o.is_buy;
        limits[i] = o.limit_price;
        qtys[i] = o.qty;
    }
    figures_of(allocation::find_uniform_clear_price(
        &is_buy[..n],
        &limits[..n],
        &qtys[..n],
        reserve,
        reference,
    ))
}

// Lots of a total over at most 16 bids: 0, or the number of a refusal, which leaves the output as it was.
#[tactic(auto, unfolding(crate::specs::Slices::bids_refusal, crate::specs::Slices::allocate_bids, credit_math::specs::ProRata::pro_rata_refusal, credit_math::specs::ProRata::allocate_pro_rata, laws::specs::Checks::unless, laws::specs::Checks::first_of))]
#[unsafe(no_mangle)]
pub extern "C" fn allocate_pro_rata(total: u64, bids: &[Bid], out: &mut [u64]) -> u8
    ensures refusal { result ≡ bids_refusal bids.now (length out.old) total }
    ensures lots { out.new ≡ allocate_bids bids.now total out.old }
{
    if MAX_ORDERS < bids.len() {
        return Refusal::BadLength.number();
    }
    let n = bids.len();
    let mut ids = [0; MAX_ORDERS];
    let mut qtys = [0; MAX_ORDERS];
    for (i, b) in bids.iter().enumerate() {
        ids[i] = b.id;
        qtys[i] = b.qty;
    }
    refusals::number_of(allocation::allocate_pro_rata(total, &ids[..n], &qtys[..n], out))
}

// The answer as plain numbers, for a host.
pub fn figures_of(answer: Result<Option<ClearResult>, Refusal>) -> Figures
    ensures { result ≡ figures_of (found answer) }
{
    match answer {
        Err(refusal) => figures_by_number(Err(refusal.number())),
        Ok(cross) => figures_by_number(Ok(cross)),
    }
}

// The same of a refusal by its number, whichever number it is.
pub fn figures_by_number(answer: Result<Option<ClearResult>, u8>) -> Figures
    ensures { result ≡ figures_of (found_by_number answer) }
{
    match answer {
        Err(number) => Figures {
            refusal: number,
            ..Figures::default()
        },
        Ok(None) => Figures::default(),
        Ok(Some(cross)) => {
            let (volume_hi, volume_lo) = cross.executed_qty.words();
            Figures {
                refusal: 0,
                crosses: true,
                price: cross.clear_price,
                volume_hi,
                volume_lo,
            }
        }
    }
}
