// The calls `settle`, `skip_fill`, `finish` and `expire`. Cash and notes move on the chain.
ghost use Rattle.std.specs.Prelude.{◌≡◌, if◌then◌else◌, not, List, [], ◌∷◌, ◌<◌, ◌≤◌, nat_lt, ◌==◌, OnOk, IfOk, length};
ghost use Rattle.std.specs.List.{list_all};
ghost use Rattle.refusals.specs.Number.{refusal_in};
ghost use Rattle.laws.specs.Sums.{sum_below, only};
ghost use Rattle.laws.specs.Bits.{is_set, with_bit};
ghost use Rattle.laws.specs.Checks.{unless, ◌then◌};
ghost use Rattle.book.specs.Limits.{max_fills};
ghost use Rattle.book.specs.Book.{fill_in};
ghost use Rattle.events.specs.declared.Event.TheVariants.{FillSettled};
ghost use Rattle.auction_engine.specs.Session.{order_at, fill_at};
ghost use Rattle.auction_engine.specs.declared.Call.TheVariants as call;
ghost use Rattle.auction_engine.specs.Settlement.{as_settled, print_of};
ghost use Rattle.auction_engine.specs.Engine.{refusal, told, answered, answer};

use crate::{Answer, Kind, Phase, Session};
use book::Fill;
use book::clear::Failure;
use disclosure::disclose;
use events::{Event, FewEvents, Print};
use investors::participants::{distinct_participants, is_skipped};
use refusals::Refusal;
use wide::Wide;

impl Session {
    // A fill has moved on the chain.
    pub fn settle(self, fill: u32) -> Answer
        ensures { answered result ≡ answer self (call.Settle fill) }
    {
        let mut session = self;
        let said = session.settle_here(fill);
        Answer::few(session, said)
    }

    #[tactic(auto, using(crate::proofs::Steps::kept), unfolding(crate::specs::Engine::answer, crate::specs::Engine::effect, crate::specs::Engine::events, crate::specs::Settlement::settle_effect, crate::specs::Settlement::settle_events))]
    pub(crate) fn settle_here(&mut self, fill: u32) -> Result<FewEvents, Refusal>
        ensures { told self.new result ≡ answer self.old (call.Settle fill) }
    {
        let at = fill as usize;
        self.settle_refusal(at)?;
        let events = settle_events(&self.fills[at], fill, self.cleared.clear_price);
        self.fills[at].settled = true;
        self.fills_settled = self.fills_settled.saturating_add(1);
        Ok(events)
    }

    #[tactic(auto, unfolding(laws::specs::Checks::unless, laws::specs::Checks::first_of, crate::specs::Engine::refusal, crate::specs::Engine::own_refusal, crate::specs::Call::arguments_refusal, crate::specs::Settlement::settle_refusal))]
    fn settle_refusal(&self, at: usize) -> Result<(), Refusal>
        ensures refusal { refusal_in result ≡ refusal self.now (call.Settle at) }
        ensures place { OnOk result (at < max_fills) }
    {
        self.checked()?;
        Refusal::WrongPhase.unless(crate::admits(self.phase, Kind::Settle))?;
        self.fill_refusal(at)
    }

    // 21 no fill; 23 settled.
    #[tactic(auto, unfolding(laws::specs::Checks::unless, laws::specs::Checks::first_of))]
    fn fill_refusal(&self, at: usize) -> Result<(), Refusal>
        requires { self.now.fill_count ≤ max_fills }
        ensures refusal { refusal_in result ≡ unless (nat_lt at self.now.fill_count) 21 then unless (not (fill_at self.now at).settled) 23 }
        ensures place { OnOk result (at < max_fills) }
    {
        Refusal::NoFill.unless(at < self.fill_count)?;
        Refusal::FillSettled.unless(!self.fills[at].settled)
    }

    // A fill that fails the gate is retired: it counts as done, and nothing moves for it. The clock is not read.
    pub fn skip_fill(self, now: i64, fill: u32, reason: u8) -> Answer
        ensures { answered result ≡ answer self (call.Skip now fill reason) }
    {
        let mut session = self;
        let said = session.skip_here(now, fill, reason);
        Answer::few(session, said)
    }

    #[tactic(auto, using(crate::proofs::Steps::kept), unfolding(crate::specs::Engine::answer, crate::specs::Engine::effect, crate::specs::Engine::events, crate::specs::Settlement::skip_effect, crate::specs::Settlement::skip_events))]
    pub(crate) fn skip_here(
        &mut self,
        now: i64,
        fill: u32,
        reason: u8,
    ) -> Result<FewEvents, Refusal>
        ensures { told self.new result ≡ answer self.old (call.Skip now fill reason) }
    {
        let at = fill as usize;
        self.skip_refusal(now, at, reason)?;
        let qty = self.fills[at].qty;
        self.fills[at].settled = true;
        self.skipped_fills = with_bit(self.skipped_fills, fill);
        Ok(FewEvents::one(Event::FillSkipped { fill, qty, reason }))
    }

    #[tactic(auto, unfolding(laws::specs::Checks::unless, laws::specs::Checks::first_of, crate::specs::Engine::refusal, crate::specs::Engine::own_refusal, crate::specs::Call::arguments_refusal, crate::specs::Settlement::skip_refusal))]
    fn skip_refusal(&self, now: i64, at: usize, reason: u8) -> Result<(), Refusal>
        ensures refusal { refusal_in result ≡ refusal self.now (call.Skip now at reason) }
        ensures place { OnOk result (at < max_fills) }
    {
        self.checked()?;
        Refusal::BadField.unless(reason <= 6)?;
        Refusal::WrongPhase.unless(crate::admits(self.phase, Kind::Skip))?;
        self.fill_refusal(at)?;
        Refusal::FillSettleable.unless(0 < reason)
    }

    // Every fill settled or skipped: the print. The clock is not read.
    pub fn finish(self, now: i64) -> Answer
        ensures { answered result ≡ answer self (call.Finish now) }
    {
        let mut session = self;
        let said = session.finish_here(now);
        Answer::few(session, said)
    }

    #[tactic(auto, using(crate::proofs::Steps::kept), unfolding(crate::specs::Engine::answer, crate::specs::Engine::effect, crate::specs::Engine::events, crate::specs::Settlement::finish_effect, crate::specs::Settlement::finish_events))]
    pub(crate) fn finish_here(&mut self, now: i64) -> Result<FewEvents, Refusal>
        ensures { told self.new result ≡ answer self.old (call.Finish now) }
    {
        let print = Event::ClearingPrint(self.print(now)?);
        Ok(FewEvents::two(print, self.moved_to(Phase::Printed)))
    }

    // What the finish prints, as the policy discloses it.
    #[tactic(auto, using(crate::proofs::Prints::settled_every), unfolding(laws::specs::Checks::unless, laws::specs::Checks::first_of, crate::specs::Engine::refusal, crate::specs::Engine::own_refusal, crate::specs::Call::arguments_refusal, crate::specs::Settlement::finish_refusal))]
    fn print(&self, now: i64) -> Result<Print, Refusal>
        ensures refusal { refusal_in result ≡ refusal self.now (call.Finish now) }
        ensures print { IfOk result (λ print. print ≡ print_of self.now) }
    {
        self.checked()?;
        Refusal::WrongPhase.unless(crate::admits(self.phase, Kind::Finish))?;
        let fills = &self.fills[..self.fill_count];
        Refusal::FillsPending.unless(all_settled(fills))?;
        let moved = u64::try_from(moved_volume(fills, self.skipped_fills))?;
        let (p, g) = (&self.params, &self.given);
        let shown = disclose(g.policy, g.band_bps, self.cleared.clear_price, moved)?;
        let count = distinct_participants(
            &self.orders,
            self.order_count,
            &self.fills,
            self.fill_count,
            self.skipped_fills,
        );
        Ok(Print {
            price: shown.price,
            volume: shown.volume,
            n_investor_ids: count,
            forced_sale: p.forced,
            policy: g.policy,
            partial: self.skipped_fills != 0,
        })
    }

    // Past the deadline the session fails.
    pub fn expire(self, now: i64) -> Answer
        ensures { answered result ≡ answer self (call.Expire now) }
    {
        let mut session = self;
        let said = session.expire_here(now);
        Answer::few(session, said)
    }

    #[tactic(auto, using(crate::proofs::Steps::kept), unfolding(crate::specs::Engine::answer, crate::specs::Engine::effect, crate::specs::Engine::events, crate::specs::Settlement::expire_effect, crate::specs::Settlement::expire_events))]
    pub(crate) fn expire_here(&mut self, now: i64) -> Result<FewEvents, Refusal>
        ensures { told self.new result ≡ answer self.old (call.Expire now) }
    {
        self.expire_refusal(now)?;
        let failed = Event::SessionFailed(Failure::Deadline as u8);
        Ok(FewEvents::two(failed, self.moved_to(Phase::Failed)))
    }

    #[tactic(auto, unfolding(laws::specs::Checks::unless, laws::specs::Checks::first_of, crate::specs::Engine::refusal, crate::specs::Engine::own_refusal, crate::specs::Call::arguments_refusal, crate::specs::Settlement::expire_refusal))]
    fn expire_refusal(&self, now: i64) -> Result<(), Refusal>
        ensures { refusal_in result ≡ refusal self.now (call.Expire now) }
    {
        self.checked()?;
        Refusal::WrongPhase.unless(crate::admits(self.phase, Kind::Expire))?;
        Refusal::OutsideWindow.unless(self.params.settle_deadline <= now)
    }
}

// Nothing is said of a fill that the issuer took whole.
fn settle_events(f: &Fill, fill: u32, price: u64) -> FewEvents
    ensures { result ≡ (if f.now.qty == 0 then [] else FillSettled fill f.now.qty price ∷ []) }
{
    if f.qty == 0 {
        return FewEvents::none();
    }
    FewEvents::one(Event::FillSettled {
        fill,
        qty: f.qty,
        price,
    })
}

#[tactic(auto, unfolding(laws::specs::Bits::with_bit))]
fn with_bit(word: u32, i: u32) -> u32
    requires { i < max_fills }
    ensures { result ≡ with_bit word i }
{
    word | (1 << i)
}

fn all_settled(fills: &[Fill]) -> bool
    ensures { result ≡ list_all (λ f. f.settled) fills.now }
{
    fills.iter().all(|f| f.settled)
}

// What moved, in two words: the source checks the sum at 64 bits. Nothing did of a fill that was skipped.
fn moved_volume(fills: &[Fill], skipped: u32) -> Wide
    requires { length fills.now ≤ max_fills }
    ensures { result ≡ sum_below (λ i. only (not (is_set skipped i)) (fill_in fills.now i).qty) (length fills.now) }
{
    let mut sum = Wide::from(0);
    for (i, f) in fills.iter().enumerate() {
        if !is_skipped(skipped, i as u32) {
            sum = sum.wrapping_add(f.qty);
        }
    }
    sum
}
