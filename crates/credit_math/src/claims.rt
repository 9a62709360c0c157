// What is proved of the definitions. Each contract here is a theorem, and holds whoever calls the function, which does nothing: so the check of
// this crate is not passed while one of them is unproved.
ghost use Rattle.std.specs.Prelude.{Bool, List, ℕ, ◌<◌};
ghost use Rattle.credit_math.specs.Claims.{RoundsUp, PriceIsRight, TableIsRight, RunningSumsFit, TotalsFit, ShareIsRight, RightRemainders, LotsAreRight};

pub fn rounds_up()
    ensures { (a b : ℕ) → 0 < b → RoundsUp a b }
{}

pub fn price_is_right()
    ensures { (is_buy : List Bool) (limits qtys : List ℕ) (reserve reference : ℕ) → PriceIsRight is_buy limits qtys reserve reference }
{}

pub fn totals_fit()
    ensures { (is_buy : List Bool) (limits qtys : List ℕ) → TotalsFit is_buy limits qtys }
{}

pub fn table_is_right()
    ensures { (is_buy : List Bool) (limits qtys : List ℕ) → TableIsRight is_buy limits qtys }
{}

pub fn running_sums_fit()
    ensures { (is_buy : List Bool) (limits qtys : List ℕ) → RunningSumsFit is_buy limits qtys }
{}

pub fn share_is_right()
    ensures { (total sum qty : ℕ) → ShareIsRight total sum qty }
{}

pub fn remainders_are_right()
    ensures { (qtys : List ℕ) (total : ℕ) → RightRemainders qtys total }
{}

pub fn lots_are_right()
    ensures { (ids qtys : List ℕ) (total : ℕ) → LotsAreRight ids qtys total }
{}
