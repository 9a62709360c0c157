// The rows `SH`, `SI` and `OR`: what opens a session.
ghost use Rattle.std.specs.Prelude.{◌≡◌, if◌then◌else◌, not, ◌&&◌, ◌||◌, nat_lt, nat_le, ◌==◌, pos, ◌+ℤ◌, IfOk};
ghost use Rattle.std.specs.Int.Signed.{lt_z, le_z};
ghost use Rattle.std.specs.List.{list_any};
ghost use Rattle.refusals.specs.Number.{refusal_in};
ghost use Rattle.laws.specs.Lists.{same};
ghost use Rattle.laws.specs.Checks.{unless, ◌then◌};
ghost use Rattle.clock.specs.Clock.{sum_fits};
ghost use Rattle.book.specs.Book.{no_wallet};
ghost use Rattle.events.specs.declared.Event.TheVariants.{Ordered};
ghost use Rattle.auction_engine.specs.Opening.{header_refusal, row_refusal, order_refusal, with_order};

use crate::Session;
use crate::first_checks::check;
use book::{Given, Order, Params, Row};
use events::Event;
use refusals::Refusal;

// 4 a field outside its values; 5 an invalid schedule; 6 no cash cap.
#[tactic(auto, using(crate::proofs::Steps::steps), unfolding(crate::specs::Opening::header_refusal))]
pub fn header_refusal(p: &Params, g: &Given, cover: Option<u8>) -> Result<(), Refusal>
    ensures { refusal_in result ≡ header_refusal p.now g.now cover }
{
    check(Refusal::BadField, !(p.forced & (0 < g.reserve)))?;
    check(Refusal::BadField, g.policy <= 3)?;
    check(Refusal::BadField, g.band_bps <= disclosure::MAX_BAND)?;
    escrow::decimals_refusal(cover)?;
    schedule_refusal(p)
}

#[tactic(auto, using(crate::proofs::Steps::steps))]
fn schedule_refusal(p: &Params) -> Result<(), Refusal>
    ensures { refusal_in result ≡ unless (lt_z p.now.reveal_end p.now.settle_deadline) 5
        then unless (le_z (pos 0) p.now.rofr_window) 5
        then unless (not (same p.now.rofr_authority no_wallet) || le_z p.now.rofr_window (pos 0)) 5
        then unless (sum_fits p.now.reveal_end p.now.rofr_window) 5
        then unless (lt_z (p.now.reveal_end +ℤ p.now.rofr_window) p.now.settle_deadline) 5
        then unless (nat_le 2 p.now.min_reveals) 5
        then unless (nat_lt 0 p.now.max_cash) 6 }
{
    check(Refusal::InvalidSchedule, p.reveal_end < p.settle_deadline)?;
    check(Refusal::InvalidSchedule, 0 <= p.rofr_window)?;
    check(Refusal::InvalidSchedule, window_has_holder(p))?;
    window_end_refusal(p)
}

// 5: the window's end no time or not before the deadline, or too few reveals; 6 no cash cap.
#[tactic(auto, using(crate::proofs::Steps::steps))]
fn window_end_refusal(p: &Params) -> Result<(), Refusal>
    ensures { refusal_in result ≡ unless (sum_fits p.now.reveal_end p.now.rofr_window) 5
        then unless (lt_z (p.now.reveal_end +ℤ p.now.rofr_window) p.now.settle_deadline) 5
        then unless (nat_le 2 p.now.min_reveals) 5
        then unless (nat_lt 0 p.now.max_cash) 6 }
{
    check(
        Refusal::InvalidSchedule,
        clock::sum_fits(p.reveal_end, p.rofr_window),
    )?;
    let end = clock::sum_before(p.reveal_end, p.rofr_window, p.settle_deadline);
    check(Refusal::InvalidSchedule, end)?;
    check(Refusal::InvalidSchedule, 2 <= p.min_reveals)?;
    check(Refusal::ZeroFigure, 0 < p.max_cash)
}

// Without an authority there is no window.
fn window_has_holder(p: &Params) -> bool
    ensures { result ≡ not (same p.now.rofr_authority no_wallet) || le_z p.now.rofr_window (pos 0) }
{
    let none = p.rofr_authority == [0; 32];
    !none | (p.rofr_window <= 0)
}

// What refuses the row by itself; 7 seventeenth; 8 owner seen.
#[tactic(auto, using(crate::proofs::Steps::steps), unfolding(crate::specs::Opening::order_refusal))]
pub fn order_refusal(s: &Session, cover: Option<u8>, row: &Row) -> Result<(), Refusal>
    ensures { refusal_in result ≡ order_refusal s.now cover row.now }
{
    row_refusal(cover, row)?;
    check(Refusal::OrdersFull, s.order_count < Session::MAX_ORDERS)?;
    check(
        Refusal::DuplicateOrder,
        !seen(&s.orders[..s.order_count], &row.owner),
    )
}

fn seen(orders: &[Order], owner: &[u8; 32]) -> bool
    ensures { result ≡ list_any (λ o. same o.owner owner.now) orders.now }
{
    orders.iter().any(|o| o.owner == *owner)
}

// 4 side; 6 escrow 0, revealed with limit or qty 0, unrevealed with either not 0; 31 uncovered.
#[tactic(auto, unfolding(laws::specs::Checks::unless, laws::specs::Checks::first_of, crate::specs::Opening::row_refusal))]
pub fn row_refusal(cover: Option<u8>, row: &Row) -> Result<(), Refusal>
    ensures { refusal_in result ≡ row_refusal cover row.now }
{
    check(Refusal::BadField, row.side <= 1)?;
    check(Refusal::ZeroFigure, 0 < row.escrowed)?;
    check(Refusal::ZeroFigure, shows_right(row))?;
    escrow::cover_refusal(cover, row)
}

// Revealed with both figures, or unrevealed with none.
fn shows_right(row: &Row) -> bool
    ensures { result ≡ (if row.now.revealed then nat_lt 0 row.now.limit && nat_lt 0 row.now.qty else row.now.limit == 0 && row.now.qty == 0) }
{
    if row.revealed {
        (0 < row.limit) & (0 < row.qty)
    } else {
        (row.limit == 0) & (row.qty == 0)
    }
}

// An order that a file lists, written where the session lies, and the event that says it; a refused one leaves the session as it was.
#[tactic(auto, using(crate::proofs::Orders::order_room), unfolding(crate::specs::Opening::with_order))]
pub fn add_order(s: &mut Session, cover: Option<u8>, row: &Row) -> Result<Event, Refusal>
    ensures refusal { refusal_in result ≡ order_refusal s.old cover row.now }
    ensures session { s.new ≡ (if order_refusal s.old cover row.now == 0 then with_order s.old row.now else s.old) }
    ensures said { IfOk result (λ said. said ≡ Ordered s.old.order_count) }
{
    order_refusal(s, cover, row)?;
    let at = s.order_count;
    s.orders[at] = Order::from(*row);
    s.order_count = at + 1;
    Ok(Event::Ordered(at as u64))
}
