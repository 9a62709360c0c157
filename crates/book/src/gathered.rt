// Orders gathered from a book, one behind the other, for the parallel slices of the price search and of pro-rata.
ghost use Rattle.std.specs.Prelude.{ℕ, ◌<◌, ◌≤◌, slice_index};
ghost use Rattle.credit_math.specs.Limits.{max_orders};

use credit_math::MAX_ORDERS;

// The live orders: the first `count` places hold their numbers, sides, limits and quantities.
#[derive(Clone, Copy)]
pub struct Live {
    pub count: usize,
    pub numbers: [u64; MAX_ORDERS],
    pub is_buy: [bool; MAX_ORDERS],
    pub limits: [u64; MAX_ORDERS],
    pub qtys: [u64; MAX_ORDERS],
    pub ghost few: { count ≤ max_orders },
    pub ghost inside: { (i : ℕ) → i < count → slice_index numbers i < max_orders },
}

// Those of a side that trade at a price, by number and quantity.
#[derive(Clone, Copy)]
pub struct Side {
    pub count: usize,
    pub numbers: [u64; MAX_ORDERS],
    pub qtys: [u64; MAX_ORDERS],
    pub ghost few: { count ≤ max_orders },
    pub ghost inside: { (i : ℕ) → i < count → slice_index numbers i < max_orders },
}
