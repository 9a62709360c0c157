// The call `screen`: one order against its gate verdict and its investor's other orders.
ghost use Rattle.std.specs.Prelude.{◌≡◌, not, ◌&&◌, ◌||◌, ◌<◌, nat_le, ◌==◌, OnOk};
ghost use Rattle.refusals.specs.Number.{refusal_in};
ghost use Rattle.laws.specs.Lists.{same};
ghost use Rattle.laws.specs.Checks.{unless, ◌then◌};
ghost use Rattle.credit_math.specs.Limits.{max_orders};
ghost use Rattle.book.specs.Book.{no_investor};
ghost use Rattle.auction_engine.specs.Screening.{exclusion_of, screened_as, screen_lines};
ghost use Rattle.auction_engine.specs.Engine.{refusal, told, answered, answer};
ghost use Rattle.auction_engine.specs.declared.Call.TheVariants as call;

use crate::first_checks::check;
use crate::{Answer, Kind, Phase, Session};
use book::Order;
use events::{Event, FewEvents};
use investors::exclusion::investor_exclusion;
use refusals::Refusal;

impl Session {
    // An order's gate verdict, and the id of its investor where one is given.
    pub fn screen(
        self,
        now: i64,
        order: u8,
        side: u8,
        verdict: u8,
        has_id: bool,
        id: [u8; 16],
    ) -> Answer
        ensures { answered result ≡ answer self (call.Screen now order side verdict has_id id) }
    {
        let mut session = self;
        let said = session.screen_here(now, order, side, verdict, has_id, &id);
        Answer::few(session, said)
    }

    #[tactic(auto, using(crate::proofs::Steps::kept), unfolding(crate::specs::Engine::answer, crate::specs::Engine::effect, crate::specs::Engine::events, crate::specs::Screening::screen_effect, crate::specs::Screening::screen_events))]
    pub(crate) fn screen_here(
        &mut self,
        now: i64,
        order: u8,
        side: u8,
        verdict: u8,
        has_id: bool,
        id: &[u8; 16],
    ) -> Result<FewEvents, Refusal>
        ensures { told self.new result ≡ answer self.old (call.Screen now order side verdict has_id id.now) }
    {
        let i = order as usize;
        self.screen_refusal(now, i, side, verdict, has_id, id)?;
        let exclusion = self.exclusion_of(i, verdict, has_id, id);
        let events = screen_events(self.phase, order, exclusion);
        self.orders[i] = as_screened(&self.orders[i], exclusion, has_id, id);
        self.phase = Phase::Clearing as u8;
        Ok(events)
    }

    // What any call checks, a session before its arguments, and then the screen's own row.
    #[tactic(auto, using(crate::proofs::Steps::stages), unfolding(crate::specs::Engine::own_refusal, crate::specs::Call::arguments_refusal, crate::specs::Screening::screen_refusal))]
    fn screen_refusal(
        &self,
        now: i64,
        i: usize,
        side: u8,
        verdict: u8,
        has_id: bool,
        id: &[u8; 16],
    ) -> Result<(), Refusal>
        ensures refusal { refusal_in result ≡ refusal self.now (call.Screen now i side verdict has_id id.now) }
        ensures place { OnOk result (i < max_orders) }
    {
        self.checked()?;
        arguments_refusal(side, verdict, has_id, id)?;
        check(Refusal::OutsideWindow, self.in_window(now))?;
        check(Refusal::WrongPhase, crate::admits(self.phase, Kind::Screen))?;
        check(Refusal::NoOrder, i < self.order_count)?;
        let o = &self.orders[i];
        check(Refusal::WrongSide, o.side == side)?;
        check(Refusal::NotRevealed, o.revealed)?;
        check(Refusal::AlreadyScreened, !o.screened)
    }

    // A verdict other than 0 is the exclusion; with verdict 0 and an id, the investor's other orders decide.
    #[tactic(auto, unfolding(crate::specs::Screening::exclusion_of))]
    fn exclusion_of(&self, i: usize, verdict: u8, has_id: bool, id: &[u8; 16]) -> u8
        ensures { result ≡ exclusion_of self.now i verdict has_id id.now }
    {
        if verdict != 0 {
            return verdict;
        }
        if !has_id {
            return 0;
        }
        let found = investor_exclusion(&self.orders, self.order_count, i, id, self.params.max_cash);
        match found {
            Some(exclusion) => exclusion as u8,
            None => 0,
        }
    }
}

// 4: a side or a verdict outside its values; without an id it is zeros; a passed buy has an id.
#[tactic(auto, using(crate::proofs::Steps::steps))]
pub fn arguments_refusal(side: u8, verdict: u8, has_id: bool, id: &[u8; 16]) -> Result<(), Refusal>
    ensures { refusal_in result ≡ unless (nat_le side 1) 4
        then unless (nat_le verdict 6) 4
        then unless (has_id || same id.now no_investor) 4
        then unless (has_id || not (side == 0 && verdict == 0)) 4 }
{
    check(Refusal::BadField, side <= 1)?;
    check(Refusal::BadField, verdict <= 6)?;
    check(Refusal::BadField, has_id | (*id == [0; 16]))?;
    check(Refusal::BadField, has_id | !((side == 0) & (verdict == 0)))
}

fn as_screened(o: &Order, exclusion: u8, has_id: bool, id: &[u8; 16]) -> Order
    ensures { result ≡ screened_as o.now exclusion has_id id.now }
{
    Order {
        screened: true,
        eligible: exclusion == 0,
        exclusion,
        investor_id: if has_id { *id } else { o.investor_id },
        ..*o
    }
}

// The change of phase on the first screen, then the screen.
fn screen_events(from: u8, order: u8, exclusion: u8) -> FewEvents
    ensures { result ≡ screen_lines from order exclusion }
{
    let screened = Event::OrderScreened { order, exclusion };
    if from == Phase::Clearing as u8 {
        return FewEvents::one(screened);
    }
    let moved = Event::PhaseChanged {
        from,
        to: Phase::Clearing as u8,
    };
    FewEvents::two(moved, screened)
}
