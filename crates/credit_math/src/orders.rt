// Orders on parallel slices of 64-bit numbers.
ghost use Rattle.std.specs.Prelude.{◌≡◌, ◌≤◌, length};
ghost use Rattle.credit_math.specs.Limits.{max_orders};

// At most 16 orders, by place: whether one buys, its limit and its quantity.
#[derive(Clone, Copy)]
pub struct Orders<'a> {
    pub is_buy: &'a [bool],
    pub limits: &'a [u64],
    pub qtys: &'a [u64],
    pub ghost few: { length is_buy.now ≤ max_orders },
    pub ghost limits_too: { length limits.now ≡ length is_buy.now },
    pub ghost qtys_too: { length qtys.now ≡ length is_buy.now },
}
