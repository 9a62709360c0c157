// What any call checks first, and the window of screen and clear.
ghost use Rattle.std.specs.Prelude.{◌≡◌, true, ◌&&◌, ◌≤◌, nat_le, OnOk};
ghost use Rattle.std.specs.List.{list_all};
ghost use Rattle.refusals.specs.Number.{number, refusal_in};
ghost use Rattle.laws.specs.Checks.{unless, ◌then◌};
ghost use Rattle.credit_math.specs.Limits.{max_orders};
ghost use Rattle.book.specs.Limits.{max_fills};
ghost use Rattle.book.specs.Book.{kind_fits};
ghost use Rattle.auction_engine.specs.Call.{limits_refusal, fields_refusal, in_window};

use crate::{Phase, Session};
use book::Order;
use refusals::Refusal;

impl Session {
    // 9, then 4 for a field of the session.
    #[tactic(auto, unfolding(laws::specs::Checks::first_of))]
    pub fn checked(&self) -> Result<(), Refusal>
        ensures refusal { refusal_in result ≡ limits_refusal self.now then fields_refusal self.now }
        ensures few { OnOk result ((self.now.order_count ≤ max_orders) × (self.now.fill_count ≤ max_fills)) }
    {
        self.limits_refusal()?;
        self.fields_refusal()
    }

    // 9: a count or a figure above its limit.
    #[tactic(auto, unfolding(laws::specs::Checks::unless, laws::specs::Checks::first_of, crate::specs::Call::limits_refusal))]
    pub(crate) fn limits_refusal(&self) -> Result<(), Refusal>
        ensures refusal { refusal_in result ≡ limits_refusal self.now }
        ensures few { OnOk result ((self.now.order_count ≤ max_orders) × (self.now.fill_count ≤ max_fills)) }
    {
        let (p, g) = (&self.params, &self.given);
        Refusal::OverLimit.unless(self.order_count <= Session::MAX_ORDERS)?;
        Refusal::OverLimit.unless(self.fill_count <= Session::MAX_FILLS)?;
        Refusal::OverLimit.unless(g.band_bps <= disclosure::MAX_BAND)?;
        Refusal::OverLimit.unless(!(p.forced & (0 < g.reserve)))?;
        Refusal::OverLimit.unless(clock::sum_fits(p.reveal_end, p.rofr_window))
    }

    // 4: a field of the session outside its values.
    #[tactic(auto, using(crate::proofs::Chains::orders_every, laws::proofs::Checking::two_checks), unfolding(laws::specs::Checks::unless, laws::specs::Checks::first_of, crate::specs::Call::fields_refusal))]
    fn fields_refusal(&self) -> Result<(), Refusal>
        requires { self.now.order_count ≤ max_orders }
        ensures { refusal_in result ≡ fields_refusal self.now }
    {
        Refusal::BadField.unless(self.phase <= Phase::Clearing as u8)?;
        Refusal::BadField.unless(self.given.policy <= 3)?;
        Refusal::BadField.unless(orders_in_range(&self.orders[..self.order_count]))
    }

    // From the end of the reveals up to, without, the deadline.
    #[tactic(auto, unfolding(crate::specs::Call::in_window))]
    pub(crate) fn in_window(&self, now: i64) -> bool
        ensures { result ≡ in_window self.now now }
    {
        (self.params.reveal_end <= now) & (now < self.params.settle_deadline)
    }
}

// Sides and exclusion kinds.
fn orders_in_range(orders: &[Order]) -> bool
    ensures { result ≡ list_all (λ o. nat_le o.side 1 && kind_fits o) orders.now }
{
    orders.iter().all(|o| (o.side <= 1) & o.kind_fits())
}

// One check, by its number.
#[tactic(auto, unfolding(laws::specs::Checks::unless))]
pub fn check(refusal: Refusal, test: bool) -> Result<(), Refusal>
    ensures refusal { refusal_in result ≡ unless test (number refusal) }
    ensures held { OnOk result (test ≡ true) }
{
    refusal.unless(test)
}
