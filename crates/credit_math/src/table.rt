// The table of side totals.
ghost use Rattle.std.specs.Prelude.{◌≡◌, ◌≤◌};
ghost use Rattle.credit_math.specs.Limits.{max_orders};

use crate::MAX_ORDERS;
use wide::Wide;

// A limit, and the totals of both sides beside it.
#[derive(Clone, Copy, Debug, Default, PartialEq, Eq)]
pub struct Totals {
    pub limit: u64,
    pub buys: Wide,
    pub sells: Wide,
}

// The orders' limits, ascending, each once, with their totals: the first `count` rows, and zeros behind them.
#[derive(Clone, Copy, Debug, PartialEq, Eq)]
pub struct SideTotals {
    pub count: usize,
    pub rows: [Totals; MAX_ORDERS],
    pub ghost few: { count ≤ max_orders },
}
