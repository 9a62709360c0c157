// A session and a call, read from a block of bytes.
ghost use Rattle.std.specs.Prelude.{◌≡◌, ◌<◌};
ghost use Rattle.laws.specs.Lists.{table};
ghost use Rattle.credit_math.specs.Limits.{max_orders};
ghost use Rattle.book.specs.Limits.{max_fills};
ghost use Rattle.single_calls.specs.Image.{params_in, given_in, cleared_in, order_in, fill_in, session_in, call_in};

use auction_engine::{CallRecord, Cleared, Session};
use book::{Fill, Given, Order, Params};
use octets::reading;

// The count of orders, the first order, and the bytes of each; the same of fills; the call.
const ORDER_COUNT_AT: usize = 141;

const ORDERS_AT: usize = ORDER_COUNT_AT + 1;

const ORDER: usize = 93;

const FILL_COUNT_AT: usize = ORDERS_AT + ORDER * Session::MAX_ORDERS;

const FILLS_AT: usize = FILL_COUNT_AT + 1;

const FILL: usize = 74;

const CALL_AT: usize = FILLS_AT + FILL * Session::MAX_FILLS;

// A whole block.
pub const BLOCK: usize = CALL_AT + 75;

// Every place of the arrays is read; the counts may be above the limits.
pub fn session_in(block: &[u8]) -> Session
    ensures { result ≡ session_in block.now }
{
    let params = params_in(block);
    let given = given_in(block);
    let cleared = cleared_in(block);
    let orders = orders_in(block);
    let fills = fills_in(block);
    Session {
        params,
        given,
        cleared,
        phase: reading::u8_at(block, 92),
        rofr_qty: reading::u64_at(block, 125),
        fills_settled: reading::u32_at(block, 133),
        skipped_fills: reading::u32_at(block, 137),
        orders,
        order_count: reading::u8_at(block, ORDER_COUNT_AT) as usize,
        fills,
        fill_count: reading::u8_at(block, FILL_COUNT_AT) as usize,
    }
}

fn params_in(block: &[u8]) -> Params
    ensures { result ≡ params_in block.now }
{
    let rofr_authority = reading::bytes_at(block, 34);
    Params {
        reveal_end: reading::time_at(block, 0),
        rofr_window: reading::time_at(block, 8),
        settle_deadline: reading::time_at(block, 16),
        max_cash: reading::u64_at(block, 24),
        min_reveals: reading::u8_at(block, 32),
        forced: reading::flag_at(block, 33),
        rofr_authority,
    }
}

fn given_in(block: &[u8]) -> Given
    ensures { result ≡ given_in block.now }
{
    Given {
        mark: reading::flag_at(block, 66),
        reserve: reading::u64_at(block, 67),
        reference: reading::u64_at(block, 75),
        policy: reading::u8_at(block, 83),
        band_bps: reading::u64_at(block, 84),
    }
}

fn cleared_in(block: &[u8]) -> Cleared
    ensures { result ≡ cleared_in block.now }
{
    Cleared {
        clear_price: reading::u64_at(block, 93),
        cleared_volume: reading::u64_at(block, 101),
        reserve_price: reading::u64_at(block, 109),
        reference_mark: reading::u64_at(block, 117),
    }
}

fn orders_in(block: &[u8]) -> [Order; Session::MAX_ORDERS]
    ensures { result ≡ table (order_in block.now) max_orders }
{
    let mut orders = [Order::default(); Session::MAX_ORDERS];
    for i in 0..Session::MAX_ORDERS {
        orders[i] = order_in(block, i);
    }
    orders
}

fn order_in(block: &[u8], i: usize) -> Order
    requires { i < max_orders }
    ensures { result ≡ order_in block.now i }
{
    let at = ORDERS_AT + ORDER * i;
    let owner = reading::bytes_at(block, at);
    let investor_id = reading::bytes_at(block, at + 76);
    Order {
        owner,
        side: reading::u8_at(block, at + 32),
        escrowed: reading::u64_at(block, at + 33),
        revealed: reading::flag_at(block, at + 41),
        limit: reading::u64_at(block, at + 42),
        qty: reading::u64_at(block, at + 50),
        alloc: reading::u64_at(block, at + 58),
        alloc_left: reading::u64_at(block, at + 66),
        screened: reading::flag_at(block, at + 74),
        eligible: reading::flag_at(block, at + 75),
        exclusion: reading::u8_at(block, at + 92),
        investor_id,
    }
}

fn fills_in(block: &[u8]) -> [Fill; Session::MAX_FILLS]
    ensures { result ≡ table (fill_in block.now) max_fills }
{
    let mut fills = [Fill::default(); Session::MAX_FILLS];
    for i in 0..Session::MAX_FILLS {
        fills[i] = fill_in(block, i);
    }
    fills
}

fn fill_in(block: &[u8], i: usize) -> Fill
    requires { i < max_fills }
    ensures { result ≡ fill_in block.now i }
{
    let at = FILLS_AT + FILL * i;
    let buyer = reading::bytes_at(block, at);
    let seller = reading::bytes_at(block, at + 32);
    Fill {
        buyer,
        seller,
        qty: reading::u64_at(block, at + 64),
        rofr: reading::flag_at(block, at + 72),
        settled: reading::flag_at(block, at + 73),
    }
}

pub fn call_in(block: &[u8]) -> CallRecord
    ensures { result ≡ call_in block.now }
{
    let id = reading::bytes_at(block, CALL_AT + 12);
    let wallet = reading::bytes_at(block, CALL_AT + 29);
    CallRecord {
        kind: reading::u8_at(block, CALL_AT),
        now: reading::time_at(block, CALL_AT + 1),
        order: reading::u8_at(block, CALL_AT + 9),
        side: reading::u8_at(block, CALL_AT + 10),
        verdict: reading::u8_at(block, CALL_AT + 11),
        has_id: reading::flag_at(block, CALL_AT + 74),
        id,
        max_fills: reading::u8_at(block, CALL_AT + 28),
        wallet,
        fill: reading::u32_at(block, CALL_AT + 61),
        qty: reading::u64_at(block, CALL_AT + 65),
        reason: reading::u8_at(block, CALL_AT + 73),
    }
}
