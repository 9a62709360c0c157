// The auction engine from the reveal on: a session, and the nine calls on it.
#![tactic(auto)]

ghost use Rattle.std.specs.Prelude.{◌≡◌, true, false, [], ◌≤◌, Ok, IfOk, length};
ghost use Rattle.refusals.specs.Number.{number, refusal_in};
ghost use Rattle.laws.specs.Checks.{◌then◌};
ghost use Rattle.credit_math.specs.Limits.{max_orders};
ghost use Rattle.events.specs.Events.{max_events};
ghost use Rattle.auction_engine.specs.Session.{fresh, at_phase};
ghost use Rattle.events.specs.declared.Event.TheVariants.{PhaseChanged};
ghost use Rattle.auction_engine.specs.Call.{admits, arguments_refusal, limits_refusal, fields_refusal, in_window};
ghost use Rattle.auction_engine.specs.Engine.{RecordedCall, told, answered, said_by, is_many, is_allocate, answer, refused_by, record_arguments, applied};
ghost use Rattle.auction_engine.specs.Kinds.{kind_number, phase_number};

use book::{Fill, Given, Order, Params};
use events::{CallEvents, Event, FewEvents};
use refusals::Refusal;

mod calls;
pub mod clearing;
pub mod first_checks;
pub mod matching;
pub mod opening;
pub mod rofr;
pub mod screening;
pub mod settlement;

// What an accepted clear found.
#[derive(Clone, Copy, Debug, Default, PartialEq, Eq)]
pub struct Cleared {
    pub clear_price: u64,
    pub cleared_volume: u64,
    pub reserve_price: u64,
    pub reference_mark: u64,
}

#[derive(Clone, Copy, Debug, PartialEq, Eq)]
pub struct Session {
    pub params: Params,
    pub given: Given,
    pub cleared: Cleared,
    // The number of a `Phase`.
    pub phase: u8,
    // What the issuer has bought; it stops at 64 bits.
    pub rofr_qty: u64,
    // Fills settled; it stops at 32 bits.
    pub fills_settled: u32,
    // Bit i: fill i was skipped.
    pub skipped_fills: u32,
    pub orders: [Order; Session::MAX_ORDERS],
    pub order_count: usize,
    pub fills: [Fill; Session::MAX_FILLS],
    pub fill_count: usize,
}

impl Session {
    pub const MAX_ORDERS: usize = credit_math::MAX_ORDERS;

    pub const MAX_FILLS: usize = book::MAX_FILLS;

    // A session as a file opens it: in Reveal, with no order.
    pub fn new(params: Params, given: Given) -> Self
        ensures { result ≡ fresh params given }
    {
        Session {
            params,
            given,
            cleared: Cleared::default(),
            phase: Phase::Reveal as u8,
            rofr_qty: 0,
            fills_settled: 0,
            skipped_fills: 0,
            orders: [Order::default(); Session::MAX_ORDERS],
            order_count: 0,
            fills: [Fill::default(); Session::MAX_FILLS],
            fill_count: 0,
        }
    }
}

// A session's phase, by its number: a library call refuses a number above 7, so a session holds any.
#[derive(Clone, Copy, Debug, PartialEq, Eq)]
pub enum Phase {
    Commit,
    Reveal,
    Allocating,
    IssuerRofr,
    Settling,
    Printed,
    Failed,
    Clearing,
}

// What a call answers: the session that it hands back, and its events, or what refuses it.
#[derive(Clone, Copy, Drop)]
pub struct Answer {
    pub session: Session,
    pub said: Result<CallEvents, Refusal>,
}

impl Answer {
    // A refused call hands the session back as it was given, with no event.
    fn refused(session: Session, refusal: Refusal) -> Self
        ensures { answered result ≡ refused_by session (number refusal) }
    {
        Answer {
            session,
            said: Err(refusal),
        }
    }

    fn few(session: Session, said: Result<FewEvents, Refusal>) -> Self
        ensures { answered result ≡ told session said }
    {
        Answer {
            session,
            said: match said {
                Ok(events) => Ok(events.into()),
                Err(refusal) => Err(refusal),
            },
        }
    }
}

// What is said of a call: of an allocate, all its fills may be.
#[derive(Clone, Copy, Drop)]
pub enum Said {
    Few(FewEvents),
    Many(CallEvents),
}

impl Said {
    pub fn as_slice(&self) -> &[Event]
        ensures events { Ok result.now ≡ said_by (Ok self.now) }
        ensures few { length result.now ≤ max_events }
    {
        match self {
            Said::Few(events) => events.as_slice(),
            Said::Many(events) => events.as_slice(),
        }
    }
}

fn all_said(said: Result<Said, Refusal>) -> Result<CallEvents, Refusal>
    ensures { result ≡ said_by said }
{
    match said? {
        Said::Few(events) => Ok(events.into()),
        Said::Many(events) => Ok(events),
    }
}

// The nine calls with their arguments.
#[derive(Clone, Copy, Debug, PartialEq, Eq)]
pub enum Call {
    Screen {
        now: i64,
        order: u8,
        side: u8,
        verdict: u8,
        has_id: bool,
        id: [u8; 16],
    },
    Clear {
        now: i64,
    },
    Allocate {
        now: i64,
        max_fills: u8,
    },
    Exercise {
        now: i64,
        issuer: [u8; 32],
        fill: u32,
        qty: u64,
    },
    Close {
        now: i64,
        caller: [u8; 32],
    },
    Settle {
        fill: u32,
    },
    Skip {
        now: i64,
        fill: u32,
        reason: u8,
    },
    Finish {
        now: i64,
    },
    Expire {
        now: i64,
    },
}

// The calls, by kind.
pub const SCREEN: u8 = 0;

pub const CLEAR: u8 = 1;

pub const ALLOCATE: u8 = 2;

pub const EXERCISE: u8 = 3;

pub const CLOSE: u8 = 4;

pub const SETTLE: u8 = 5;

pub const SKIP: u8 = 6;

pub const FINISH: u8 = 7;

pub const EXPIRE: u8 = 8;

// A call with its arguments: each kind reads those of its own.
#[derive(Clone, Copy, Debug, Default, PartialEq, Eq)]
pub struct CallRecord {
    pub kind: u8,
    pub now: i64,
    // Of a screen.
    pub order: u8,
    pub side: u8,
    pub verdict: u8,
    pub has_id: bool,
    pub id: [u8; 16],
    // Of an allocate.
    pub max_fills: u8,
    // The issuer of an exercise, the caller of a close.
    pub wallet: [u8; 32],
    // Of an exercise, a settle and a skip.
    pub fill: u32,
    pub qty: u64,
    pub reason: u8,
}

impl Session {
    // Any call, made where the session lies: a session is large. A refused call leaves it as it was.
    pub fn make(&mut self, call: &Call) -> Result<Said, Refusal>
        ensures said { told self.new (said_by result) ≡ answer self.old call.now }
        ensures size { IfOk result (λ said. is_many said ≡ is_allocate call.now) }
    {
        if let Call::Allocate { now, max_fills } = call {
            return Ok(Said::Many(self.allocate_here(*now, *max_fills)?));
        }
        Ok(Said::Few(self.make_few(call)?))
    }

    // The same of any other call than an allocate, whose events need more room than these are moved with. An allocate is not made.
    pub fn make_few(&mut self, call: &Call) -> Result<FewEvents, Refusal>
        ensures few { is_allocate call.now ≡ false → told self.new result ≡ answer self.old call.now }
        ensures allocate { is_allocate call.now ≡ true → (result ≡ Ok []) × (self.new ≡ self.old) }
    {
        match call {
            Call::Screen {
                now,
                order,
                side,
                verdict,
                has_id,
                id,
            } => self.screen_here(*now, *order, *side, *verdict, *has_id, id),
            Call::Clear { now } => self.clear_here(*now),
            Call::Allocate { .. } => Ok(FewEvents::none()),
            Call::Exercise {
                now,
                issuer,
                fill,
                qty,
            } => self.exercise_here(*now, issuer, *fill, *qty),
            Call::Close { now, caller } => self.close_here(*now, caller),
            Call::Settle { fill } => self.settle_here(*fill),
            Call::Skip { now, fill, reason } => self.skip_here(*now, *fill, *reason),
            Call::Finish { now } => self.finish_here(*now),
            Call::Expire { now } => self.expire_here(*now),
        }
    }

    // The call that a record says.
    #[tactic(auto, unfolding(crate::specs::Engine::applied))]
    pub fn apply(self, call: CallRecord) -> Answer
        ensures { answered result ≡ applied self call }
    {
        let Ok(call) = Call::try_from(call) else {
            return Answer::refused(self, self.no_such_call());
        };
        let mut session = self;
        let said = session.make(&call);
        Answer {
            session,
            said: all_said(said),
        }
    }

    // Another phase, and the event that says so.
    pub(crate) fn moved_to(&mut self, to: Phase) -> Event
        ensures session { self.new ≡ at_phase self.old (phase_number to) }
        ensures event { result ≡ PhaseChanged self.old.phase (phase_number to) }
    {
        let from = self.phase;
        let to = to as u8;
        self.phase = to;
        Event::PhaseChanged { from, to }
    }

    // What refuses a record of a kind above 8.
    #[tactic(auto, unfolding(laws::specs::Checks::first_of))]
    pub(crate) fn no_such_call(&self) -> Refusal
        ensures { number result ≡ limits_refusal self.now then 4 }
    {
        match self.limits_refusal() {
            Err(refusal) => refusal,
            Ok(()) => Refusal::BadField,
        }
    }
}

// The kinds of calls.
#[derive(Clone, Copy, Debug, PartialEq, Eq)]
pub(crate) enum Kind {
    Screen,
    Clear,
    Allocate,
    Exercise,
    Close,
    Settle,
    Skip,
    Finish,
    Expire,
}

// 4 where the arguments that a record says are outside their values, as its kind may be.
#[tactic(auto, unfolding(laws::specs::Checks::unless, laws::specs::Checks::first_of, crate::specs::Engine::record_arguments))]
pub fn arguments_refusal(call: CallRecord) -> Result<(), Refusal>
    ensures { refusal_in result ≡ record_arguments call }
{
    Call::try_from(call)?.arguments_refusal()
}

// Whether a call of that kind is let in at that phase.
#[tactic(auto, unfolding(crate::specs::Call::admits))]
pub(crate) fn admits(phase: u8, kind: Kind) -> bool
    ensures { result ≡ admits phase (kind_number kind) }
{
    match (kind, phase) {
        (Kind::Screen | Kind::Clear, 0 | 1 | 7) => true,
        (Kind::Allocate, 2) => true,
        (Kind::Exercise | Kind::Close, 3) => true,
        (Kind::Settle | Kind::Skip | Kind::Finish, 4) => true,
        (Kind::Expire, 5 | 6) => false,
        (Kind::Expire, _) => true,
        _ => false,
    }
}
