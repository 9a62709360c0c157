// What is proved of the definitions. Each contract here is a theorem, and holds whoever calls the function, which does nothing: so the check of
// this crate is not passed while one of them is unproved.
ghost use Rattle.std.specs.Prelude.{List, ℕ};
ghost use Rattle.book.specs.declared.Order.{Order};
ghost use Rattle.book.specs.declared.Params.{Params};
ghost use Rattle.book.specs.declared.Given.{Given};
ghost use Rattle.book.specs.Claims.{ClearIsRight};

#[tactic(auto, using(crate::proofs::Theorems::clear_is_right))]
pub fn clear_is_right()
    ensures { (p : Params) (g : Given) (orders : List Order) (n : ℕ) → ClearIsRight p g orders n }
{}
