// The call `clear`: the price and the lots of the live orders, or why the session fails.
ghost use Rattle.std.specs.Prelude.{◌≡◌, not, ◌||◌, ◌≤◌, Ok};
ghost use Rattle.std.specs.List.{list_all};
ghost use Rattle.refusals.specs.Number.{refusal_in};
ghost use Rattle.laws.specs.Checks.{◌then◌};
ghost use Rattle.credit_math.specs.Limits.{max_orders};
ghost use Rattle.book.specs.Clear.{outcome_of};
ghost use Rattle.auction_engine.specs.declared.Call.TheVariants as call;
ghost use Rattle.auction_engine.specs.Call.{limits_refusal, fields_refusal};
ghost use Rattle.auction_engine.specs.Clearing.{clear_checks, with_lot, cleared_by, clear_lines};
ghost use Rattle.auction_engine.specs.Engine.{told, answered, answer};

use crate::{Answer, Cleared, Kind, Phase, Session};
use book::Order;
use book::clear::{Outcome, compute_clear, floor_of};
use events::{Event, FewEvents};
use refusals::Refusal;

impl Session {
    // Clears the live orders.
    pub fn clear(self, now: i64) -> Answer
        ensures { answered result ≡ answer self (call.Clear now) }
    {
        let mut session = self;
        let said = session.clear_here(now);
        Answer::few(session, said)
    }

    #[tactic(auto, using(crate::proofs::Clears::clearing), unfolding(crate::specs::Engine::answer, crate::specs::Engine::effect, crate::specs::Engine::events))]
    pub(crate) fn clear_here(&mut self, now: i64) -> Result<FewEvents, Refusal>
        ensures { told self.new result ≡ answer self.old (call.Clear now) }
    {
        self.clear_refusal(now)?;
        let found = compute_clear(&self.params, &self.given, &self.orders, self.order_count)?;
        Ok(self.cleared_by(&found))
    }

    // All checks but the last, 17, which the outcome has.
    #[tactic(auto, using(crate::proofs::Chains::ready_every), unfolding(laws::specs::Checks::unless, laws::specs::Checks::first_of, crate::specs::Clearing::clear_checks))]
    fn clear_refusal(&self, now: i64) -> Result<(), Refusal>
        ensures { refusal_in result ≡ limits_refusal self.now then fields_refusal self.now then clear_checks self.now now }
    {
        self.checked()?;
        Refusal::OutsideWindow.unless(self.in_window(now))?;
        Refusal::WrongPhase.unless(crate::admits(self.phase, Kind::Clear))?;
        Refusal::ScreeningPending.unless(all_ready(&self.orders[..self.order_count]))
    }

    // A price: its figures and lots, in Allocating; a failure: Failed.
    #[tactic(auto, using(crate::proofs::Lots::lots_start, crate::proofs::Lots::lots_more), unfolding(crate::specs::Clearing::cleared_by))]
    fn cleared_by(&mut self, found: &Outcome) -> FewEvents
        requires { self.old.order_count ≤ max_orders }
        ensures session { self.new ≡ cleared_by self.old (outcome_of (Ok found.now)) }
        ensures events { result ≡ clear_lines self.old (outcome_of (Ok found.now)) }
    {
        let events = self.clear_events(found);
        match found {
            Err(_) => self.phase = Phase::Failed as u8,
            Ok(cross) => {
                for i in 0..self.order_count {
                    let order = self.orders[i];
                    self.orders[i] = with_lot(&order, cross.lots[i]);
                }
                self.cleared = Cleared {
                    clear_price: cross.price,
                    cleared_volume: cross.volume,
                    reserve_price: floor_of(&self.params, &self.given),
                    reference_mark: self.given.reference,
                };
                self.phase = Phase::Allocating as u8;
            }
        }
        events
    }

    // The clear, or why it failed, and the change of phase.
    #[tactic(auto, unfolding(crate::specs::Clearing::clear_lines))]
    fn clear_events(&self, found: &Outcome) -> FewEvents
        ensures { result ≡ clear_lines self.now (outcome_of (Ok found.now)) }
    {
        let (said, to) = match found {
            Err(failure) => (Event::SessionFailed(*failure as u8), Phase::Failed),
            Ok(cross) => {
                let said = Event::Cleared {
                    price: cross.price,
                    volume: cross.volume,
                    reserve: floor_of(&self.params, &self.given),
                    reference: self.given.reference,
                };
                (said, Phase::Allocating)
            }
        };
        let moved = Event::PhaseChanged {
            from: self.phase,
            to: to as u8,
        };
        FewEvents::two(said, moved)
    }
}

// No revealed order is unscreened.
pub fn all_ready(orders: &[Order]) -> bool
    ensures { result ≡ list_all (λ o. not o.revealed || o.screened) orders.now }
{
    orders.iter().all(|o| !o.revealed | o.screened)
}

// The lot of a clear: all of it is left.
fn with_lot(o: &Order, lot: u64) -> Order
    ensures { result ≡ with_lot o.now lot }
{
    Order {
        alloc: lot,
        alloc_left: lot,
        ..*o
    }
}
