// The calls `exercise_rofr` and `close_rofr`: the issuer's right of first refusal.
ghost use Rattle.std.specs.Prelude.{◌≡◌, not, ◌<◌, ◌≤◌, nat_lt, nat_le, OnOk};
ghost use Rattle.std.specs.Int.Signed.{lt_z};
ghost use Rattle.refusals.specs.Number.{refusal_in};
ghost use Rattle.laws.specs.Checks.{unless, ◌then◌};
ghost use Rattle.book.specs.Limits.{max_fills};
ghost use Rattle.auction_engine.specs.Session.{fill_at, rofr_end};
ghost use Rattle.auction_engine.specs.declared.Call.TheVariants as call;
ghost use Rattle.auction_engine.specs.Rofr.{exercise_effect};
ghost use Rattle.auction_engine.specs.Engine.{refusal, told, answered, answer};

use crate::{Answer, Kind, Phase, Session};
use book::Fill;
use events::{Event, FewEvents};
use refusals::Refusal;

impl Session {
    // The issuer takes `qty` of a fill at the clearing price, settled at once.
    pub fn exercise_rofr(self, now: i64, issuer: [u8; 32], fill: u32, qty: u64) -> Answer
        ensures { answered result ≡ answer self (call.Exercise now issuer fill qty) }
    {
        let mut session = self;
        let said = session.exercise_here(now, &issuer, fill, qty);
        Answer::few(session, said)
    }

    #[tactic(auto, unfolding(crate::specs::Engine::effect, crate::specs::Engine::events, crate::specs::Engine::answer, crate::specs::Rofr::exercise_events))]
    pub(crate) fn exercise_here(
        &mut self,
        now: i64,
        issuer: &[u8; 32],
        fill: u32,
        qty: u64,
    ) -> Result<FewEvents, Refusal>
        ensures { told self.new result ≡ answer self.old (call.Exercise now issuer.now fill qty) }
    {
        let at = fill as usize;
        self.exercise_refusal(now, issuer, at, qty)?;
        let bought = Event::RofrExercised {
            fill,
            new: self.fill_count as u32,
            qty,
            price: self.cleared.clear_price,
        };
        self.take(issuer, at, qty);
        Ok(FewEvents::one(bought))
    }

    #[tactic(auto, unfolding(laws::specs::Checks::unless, laws::specs::Checks::first_of, crate::specs::Engine::refusal, crate::specs::Engine::own_refusal, crate::specs::Call::arguments_refusal, crate::specs::Rofr::exercise_refusal))]
    fn exercise_refusal(
        &self,
        now: i64,
        issuer: &[u8; 32],
        at: usize,
        qty: u64,
    ) -> Result<(), Refusal>
        ensures refusal { refusal_in result ≡ refusal self.now (call.Exercise now issuer.now at qty) }
        ensures place { OnOk result ((at < max_fills) × (self.now.fill_count < max_fills) × (qty ≤ (fill_at self.now at).qty)) }
    {
        self.checked()?;
        Refusal::WrongPhase.unless(crate::admits(self.phase, Kind::Exercise))?;
        Refusal::OutsideWindow.unless(self.before_rofr_end(now))?;
        Refusal::NotRofrAuthority.unless(*issuer == self.params.rofr_authority)?;
        Refusal::ZeroPurchase.unless(0 < qty)?;
        Refusal::FillsFull.unless(self.fill_count < Session::MAX_FILLS)?;
        self.take_refusal(at, qty)
    }

    // 21 no fill, or already rofr or settled; 22 qty above the fill.
    #[tactic(auto, unfolding(laws::specs::Checks::unless, laws::specs::Checks::first_of))]
    fn take_refusal(&self, at: usize, qty: u64) -> Result<(), Refusal>
        requires { self.now.fill_count ≤ max_fills }
        ensures refusal { refusal_in result ≡ unless (nat_lt at self.now.fill_count) 21
            then unless (not (fill_at self.now at).rofr) 21
            then unless (not (fill_at self.now at).settled) 21
            then unless (nat_le qty (fill_at self.now at).qty) 22 }
        ensures place { OnOk result ((at < self.now.fill_count) × (qty ≤ (fill_at self.now at).qty)) }
    {
        Refusal::NoFill.unless(at < self.fill_count)?;
        let f = &self.fills[at];
        Refusal::NoFill.unless(!f.rofr)?;
        Refusal::NoFill.unless(!f.settled)?;
        Refusal::RofrExceedsFill.unless(qty <= f.qty)
    }

    // The fill is split: the issuer has qty of it, in a fill of its own.
    #[tactic(auto, unfolding(crate::specs::Rofr::exercise_effect))]
    fn take(&mut self, issuer: &[u8; 32], at: usize, qty: u64)
        requires { (at < max_fills) × (self.old.fill_count < max_fills) × (qty ≤ (fill_at self.old at).qty) }
        ensures { self.new ≡ exercise_effect self.old issuer.now at qty }
    {
        let seller = self.fills[at].seller;
        self.fills[at].qty -= qty;
        let new = self.fill_count;
        self.fills[new] = Fill {
            buyer: *issuer,
            seller,
            qty,
            rofr: true,
            settled: true,
        };
        self.fill_count = new + 1;
        self.rofr_qty = self.rofr_qty.saturating_add(qty);
    }

    // Before the end of the issuer's window.
    #[tactic(auto, unfolding(crate::specs::Session::rofr_end))]
    fn before_rofr_end(&self, now: i64) -> bool
        ensures { result ≡ lt_z now (rofr_end self.now) }
    {
        clock::before_sum(now, self.params.reveal_end, self.params.rofr_window)
    }

    // Ends the issuer's window: by the authority, or by anybody once it has passed.
    pub fn close_rofr(self, now: i64, caller: [u8; 32]) -> Answer
        ensures { answered result ≡ answer self (call.Close now caller) }
    {
        let mut session = self;
        let said = session.close_here(now, &caller);
        Answer::few(session, said)
    }

    #[tactic(auto, using(crate::proofs::Steps::kept), unfolding(crate::specs::Engine::answer, crate::specs::Engine::effect, crate::specs::Engine::events, crate::specs::Rofr::close_effect, crate::specs::Rofr::close_events))]
    pub(crate) fn close_here(&mut self, now: i64, caller: &[u8; 32]) -> Result<FewEvents, Refusal>
        ensures { told self.new result ≡ answer self.old (call.Close now caller.now) }
    {
        self.close_refusal(now, caller)?;
        let closed = Event::RofrClosed(self.rofr_qty);
        Ok(FewEvents::two(closed, self.moved_to(Phase::Settling)))
    }

    #[tactic(auto, unfolding(laws::specs::Checks::unless, laws::specs::Checks::first_of, crate::specs::Engine::refusal, crate::specs::Engine::own_refusal, crate::specs::Call::arguments_refusal, crate::specs::Rofr::close_refusal))]
    fn close_refusal(&self, now: i64, caller: &[u8; 32]) -> Result<(), Refusal>
        ensures { refusal_in result ≡ refusal self.now (call.Close now caller.now) }
    {
        self.checked()?;
        Refusal::WrongPhase.unless(crate::admits(self.phase, Kind::Close))?;
        let ended = !self.before_rofr_end(now);
        Refusal::NotRofrAuthority.unless((*caller == self.params.rofr_authority) | ended)
    }
}
