// The call `allocate`: buyers and sellers with something left are paired, in book order, at most as often as the call allows.
ghost use Rattle.std.specs.Prelude.{◌≡◌, not, ◌<◌, ◌≤◌, ◌==◌};
ghost use Rattle.std.specs.List.{list_all, position};
ghost use Rattle.refusals.specs.Number.{refusal_in};
ghost use Rattle.laws.specs.Sums.{only};
ghost use Rattle.credit_math.specs.Limits.{max_orders};
ghost use Rattle.book.specs.Limits as limits;
ghost use Rattle.events.specs.declared.Event.TheVariants.{FillAllocated};
ghost use Rattle.auction_engine.specs.declared.Call.TheVariants as call;
ghost use Rattle.auction_engine.specs.Kinds.{phase_number};
ghost use Rattle.auction_engine.specs.Matching.{allocate_checks, less_left, due_on, fill_of, done, phase_after};
ghost use Rattle.auction_engine.specs.NextFill.{next_pair, filled_by};
ghost use Rattle.auction_engine.specs.Engine.{told, answered, answer};

use crate::{Answer, Kind, Phase, Session};
use book::{Fill, Order};
use events::{CallEvents, Event};
use refusals::Refusal;

impl Session {
    // At most `max_fills` fills more; the phase moves on once every lot is paired. The clock is not read.
    pub fn allocate(self, now: i64, max_fills: u8) -> Answer
        ensures { answered result ≡ answer self (call.Allocate now max_fills) }
    {
        let mut session = self;
        let said = session.allocate_here(now, max_fills);
        Answer { session, said }
    }

    #[tactic(auto, using(crate::proofs::Allocating::allocating), unfolding(crate::specs::Engine::answer, crate::specs::Engine::effect, crate::specs::Engine::events, crate::specs::Matching::allocate_effect, crate::specs::Matching::allocate_events))]
    pub fn allocate_here(&mut self, now: i64, max_fills: u8) -> Result<CallEvents, Refusal>
        ensures { told self.new result ≡ answer self.old (call.Allocate now max_fills) }
    {
        self.allocate_refusal()?;
        let from = self.phase;
        let to = self.phase_after() as u8;
        let mut events = self.filled_by(max_fills)?;
        if !self.all_paired() {
            return Ok(events);
        }
        events.push(Event::PhaseChanged { from, to });
        self.phase = to;
        Ok(events)
    }

    // All checks but the last, 18, which the fills have.
    #[tactic(auto, unfolding(laws::specs::Checks::unless, laws::specs::Checks::first_of, crate::specs::Matching::allocate_checks))]
    fn allocate_refusal(&self) -> Result<(), Refusal>
        ensures { refusal_in result ≡ allocate_checks self.now }
    {
        self.checked()?;
        Refusal::WrongPhase.unless(crate::admits(self.phase, Kind::Allocate))
    }

    // At most n fills; 18, and the session as it was, where one more is due and no place free.
    fn filled_by(&mut self, n: u8) -> Result<CallEvents, Refusal>
        requires { (self.old.order_count ≤ max_orders) × (self.old.fill_count ≤ limits.max_fills) }
        ensures { told self.new result ≡ filled_by self.old n }
    {
        let before = *self;
        let mut events = CallEvents::none();
        for _ in 0..n {
            let at = self.fill_count;
            let Some((b, a)) = self.next_pair() else {
                break;
            };
            if Session::MAX_FILLS <= at {
                *self = before;
                return Err(Refusal::FillsFull);
            }
            let buy = self.orders[b];
            let sell = self.orders[a];
            let qty = buy.alloc_left.min(sell.alloc_left);
            self.orders[b] = less_left(&buy, qty);
            self.orders[a] = less_left(&sell, qty);
            self.fills[at] = fill_of(&buy, &sell, qty);
            self.fill_count = at + 1;
            events.push(fill_event(at, b, a, qty));
        }
        Ok(events)
    }

    // The buy and the sell of the next fill; none is due where a side has nothing left.
    #[tactic(auto, using(crate::proofs::Pairs::next_without_buy, crate::proofs::Pairs::next_without_sell, crate::proofs::Pairs::next_found))]
    fn next_pair(&self) -> Option<(usize, usize)>
        requires { self.now.order_count ≤ max_orders }
        ensures { result ≡ next_pair self.now.orders self.now.order_count }
    {
        let orders = &self.orders[..self.order_count];
        let buy = due_place(orders, 0)?;
        let sell = due_place(orders, 1)?;
        Some((buy, sell))
    }

    // Every lot is paired.
    #[tactic(auto, using(crate::proofs::Allocating::paired_done))]
    fn all_paired(&self) -> bool
        requires { self.now.order_count ≤ max_orders }
        ensures { result ≡ done self.now }
    {
        none_left(&self.orders[..self.order_count])
    }

    // IssuerRofr with an authority, else Settling.
    #[tactic(auto, unfolding(crate::specs::Matching::phase_after))]
    fn phase_after(&self) -> Phase
        ensures { phase_number result ≡ phase_after self.now }
    {
        if self.params.rofr_authority == [0; 32] {
            return Phase::Settling;
        }
        Phase::IssuerRofr
    }
}

fn none_left(orders: &[Order]) -> bool
    ensures { result ≡ list_all (λ o. o.alloc_left == 0) orders.now }
{
    orders.iter().all(|o| o.alloc_left == 0)
}

// The first order of that side with something left.
fn due_place(orders: &[Order], side: u8) -> Option<usize>
    ensures { result ≡ position (λ o. due_on side o) orders.now }
{
    orders
        .iter()
        .position(|o| (o.side == side) & (0 < o.alloc_left))
}

fn less_left(o: &Order, qty: u64) -> Order
    requires { qty ≤ o.now.alloc_left }
    ensures { result ≡ less_left o.now qty }
{
    Order {
        alloc_left: o.alloc_left - qty,
        ..*o
    }
}

// Neither settled nor bought by the issuer: those come later.
fn fill_of(buy: &Order, sell: &Order, qty: u64) -> Fill
    ensures { result ≡ fill_of buy.now sell.now qty }
{
    Fill {
        buyer: buy.owner,
        seller: sell.owner,
        qty,
        rofr: false,
        settled: false,
    }
}

// What is said of a fill at a place, between two orders.
fn fill_event(at: usize, b: usize, a: usize, qty: u64) -> Event
    requires { (at < limits.max_fills) × (b < max_orders) × (a < max_orders) }
    ensures { result ≡ FillAllocated at b a qty }
{
    Event::FillAllocated {
        fill: at as u32,
        buy: b as u8,
        sell: a as u8,
        qty,
    }
}
