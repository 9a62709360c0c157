// Entries for the comparison with the source alone: the functions on parallel slices, one share and the test of one row, behind the C boundary.
#![tactic(auto)]

ghost use Rattle.std.specs.Prelude.{◌≡◌, length, Some};
ghost use Rattle.book.specs.Book.{no_wallet};
ghost use Rattle.escrow.specs.Cover.{cover_refusal};
ghost use Rattle.credit_math.specs.Price.{price_refusal, find_uniform_clear_price};
ghost use Rattle.credit_math.specs.SideTotals.{side_totals};
ghost use Rattle.credit_math.specs.ProRata.{share, remainder, pro_rata_refusal, allocate_pro_rata};
ghost use Rattle.order_slices.specs.Figures.{figures_of};
ghost use Rattle.wide.specs.Value.{digits};
ghost use Rattle.harness_entries.specs.Rows.{RowOf, RowSays};

use book::Row;
use credit_math::table::Totals;
use order_slices::Figures;
use wide::Wide;

#[unsafe(no_mangle)]
pub extern "C" fn entry_find_uniform_clear_price(
    is_buy: &[bool],
    limits: &[u64],
    qtys: &[u64],
    reserve: u64,
    reference: u64,
) -> Figures
    ensures { result ≡ figures_of (find_uniform_clear_price is_buy.now limits.now qtys.now reserve reference) }
{
    order_slices::figures_of(credit_math::allocation::find_uniform_clear_price(
        is_buy, limits, qtys, reserve, reference,
    ))
}

#[unsafe(no_mangle)]
pub extern "C" fn entry_allocate_pro_rata(
    total: u64,
    ids: &[u64],
    qtys: &[u64],
    out: &mut [u64],
) -> u8
    ensures refusal { result ≡ pro_rata_refusal ids.now qtys.now (length out.old) total }
    ensures lots { out.new ≡ allocate_pro_rata ids.now qtys.now total out.old }
{
    refusals::number_of(credit_math::allocation::allocate_pro_rata(total, ids, qtys, out))
}

// A share and its remainder, each in two words.
#[repr(C)]
#[derive(Clone, Copy, Debug, PartialEq, Eq)]
pub struct ShareWords {
    pub quotient_hi: u64,
    pub quotient_lo: u64,
    pub remainder_hi: u64,
    pub remainder_lo: u64,
}

#[unsafe(no_mangle)]
pub extern "C" fn entry_floor_share(total: u64, qty: u64, sum_hi: u64, sum_lo: u64) -> ShareWords
    ensures { (digits 64 result.quotient_hi result.quotient_lo ≡ share total (digits 64 sum_hi sum_lo) qty)
        × (digits 64 result.remainder_hi result.remainder_lo ≡ remainder total (digits 64 sum_hi sum_lo) qty) }
{
    let sum_qty = Wide::of_words(sum_hi, sum_lo);
    let part = credit_math::allocation::floor_share(total, qty, sum_qty);
    let (quotient_hi, quotient_lo) = part.quotient.words();
    let (remainder_hi, remainder_lo) = part.rest.words();
    ShareWords {
        quotient_hi,
        quotient_lo,
        remainder_hi,
        remainder_lo,
    }
}

// A row of the table of side totals, with the refusal and the number of rows: past the last row zeros.
#[repr(C)]
#[derive(Clone, Copy, Debug, PartialEq, Eq)]
pub struct TotalsRow {
    pub refusal: u8,
    pub count: usize,
    pub limit: u64,
    pub buy_hi: u64,
    pub buy_lo: u64,
    pub sell_hi: u64,
    pub sell_lo: u64,
}

#[unsafe(no_mangle)]
pub extern "C" fn entry_side_totals(
    is_buy: &[bool],
    limits: &[u64],
    qtys: &[u64],
    row: usize,
) -> TotalsRow
    ensures { RowOf (price_refusal is_buy.now limits.now qtys.now)
        (side_totals is_buy.now limits.now qtys.now) row result }
{
    match credit_math::side_totals::side_totals(is_buy, limits, qtys) {
        Err(refusal) => totals_row(refusal.number(), 0, Totals::default()),
        Ok(table) if row < credit_math::MAX_ORDERS => totals_row(0, table.count, table.rows[row]),
        Ok(table) => totals_row(0, table.count, Totals::default()),
    }
}

fn totals_row(refusal: u8, count: usize, row: Totals) -> TotalsRow
    ensures { RowSays refusal count row.limit row.buys row.sells result }
{
    let (buy_hi, buy_lo) = row.buys.words();
    let (sell_hi, sell_lo) = row.sells.words();
    TotalsRow {
        refusal,
        count,
        limit: row.limit,
        buy_hi,
        buy_lo,
        sell_hi,
        sell_lo,
    }
}

// The test of one row for cover, its fields one by one; the owner is not read.
#[unsafe(no_mangle)]
pub extern "C" fn entry_cover_refusal(
    decimals: u8,
    side: u8,
    escrowed: u64,
    revealed: bool,
    limit: u64,
    qty: u64,
) -> u8
    ensures { result ≡ cover_refusal (Some decimals) (record { owner = no_wallet; side = side; escrowed = escrowed; revealed = revealed; limit = limit; qty = qty }) }
{
    let row = Row {
        owner: [0; 32],
        side,
        escrowed,
        revealed,
        limit,
        qty,
    };
    refusals::number_of(escrow::cover_refusal(Some(decimals), &row))
}
