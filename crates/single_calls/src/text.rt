// The words of an answer. What a function writes is free in its contract: no contract can say what is written, and the comparison reads every
// byte of it.
ghost use Rattle.std.specs.Prelude.{◌≡◌, not, ◌||◌, ◌==◌};

use auction_engine::Session;
use book::{Fill, Order};
use events::{Event, Print};
use refusals::Refusal;
use std::fmt::Display;
use std::io::Print as Output;

// A write that fails is not said.
pub fn say(rt: &impl Output, value: impl Display + Drop) {
    let _ = rt.print(value);
}

fn field(rt: &impl Output, n: u64) {
    say(rt, " ");
    say(rt, n);
}

fn flag(rt: &impl Output, b: bool) {
    field(rt, u64::from(b));
}

fn key(rt: &impl Output, bytes: &[u8]) {
    say(rt, " ");
    for byte in bytes {
        hex(rt, *byte);
    }
}

fn hex(rt: &impl Output, byte: u8) {
    let _ = print!(rt; "{byte:02x}");
}

// The oracle says no session for 9 and 4.
pub fn is_shown(refusal: u8) -> bool
    ensures { result ≡ not (refusal == 9 || refusal == 4) }
{
    refusal != Refusal::OverLimit.number() && refusal != Refusal::BadField.number()
}

// The events of an accepted call, or `none`.
pub fn put_events(rt: &impl Output, events: &[Event]) {
    if events.is_empty() {
        say(rt, "none");
    }
    for (i, event) in events.iter().enumerate() {
        if 0 < i {
            say(rt, ";");
        }
        put_event(rt, event);
    }
}

fn put_event(rt: &impl Output, event: &Event) {
    match *event {
        Event::Nothing => say(rt, "none"),
        Event::OrderScreened { order, exclusion } => {
            put(rt, "screen", &[order.into(), exclusion.into()])
        }
        Event::Cleared {
            price,
            volume,
            reserve,
            reference,
        } => put(rt, "clear", &[price, volume, reserve, reference]),
        Event::SessionFailed(reason) => put(rt, "failed", &[reason.into()]),
        Event::FillAllocated {
            fill,
            buy,
            sell,
            qty,
        } => put(rt, "fill", &[fill.into(), buy.into(), sell.into(), qty]),
        Event::RofrExercised {
            fill,
            new,
            qty,
            price,
        } => put(rt, "rofr", &[fill.into(), new.into(), qty, price]),
        Event::RofrClosed(qty) => put(rt, "close", &[qty]),
        Event::FillSettled { fill, qty, price } => put(rt, "settle", &[fill.into(), qty, price]),
        Event::FillSkipped { fill, qty, reason } => {
            put(rt, "skip", &[fill.into(), qty, reason.into()])
        }
        Event::ClearingPrint(print) => put_print(rt, &print),
        Event::PhaseChanged { from, to } => put(rt, "phase", &[from.into(), to.into()]),
        Event::Opened => put(rt, "open", &[]),
        Event::Ordered(order) => put(rt, "order", &[order]),
        Event::Refused(number) => put(rt, "refused", &[number.into()]),
    }
}

fn put_print(rt: &impl Output, p: &Print) {
    put(rt, "print", &[p.price, p.volume, p.n_investor_ids]);
    flag(rt, p.forced_sale);
    field(rt, p.policy.into());
    flag(rt, p.partial);
}

fn put(rt: &impl Output, word: &str, figures: &[u64]) {
    say(rt, word);
    for &figure in figures {
        field(rt, figure);
    }
}

pub fn put_session(rt: &impl Output, s: &Session) {
    say(rt, s.phase);
    field(rt, s.cleared.clear_price);
    field(rt, s.cleared.cleared_volume);
    field(rt, s.cleared.reserve_price);
    field(rt, s.cleared.reference_mark);
    field(rt, s.rofr_qty);
    field(rt, s.fills_settled as u64);
    field(rt, s.skipped_fills as u64);
    field(rt, s.order_count as u64);
    put_orders(rt, s);
    field(rt, s.fill_count as u64);
    put_fills(rt, s);
}

fn put_orders(rt: &impl Output, s: &Session) {
    for o in s.orders.iter().take(s.order_count) {
        put_order(rt, o);
    }
}

fn put_order(rt: &impl Output, o: &Order) {
    key(rt, &o.owner);
    field(rt, o.side as u64);
    field(rt, o.escrowed);
    flag(rt, o.revealed);
    field(rt, o.limit);
    field(rt, o.qty);
    field(rt, o.alloc);
    field(rt, o.alloc_left);
    flag(rt, o.screened);
    flag(rt, o.eligible);
    field(rt, o.exclusion.into());
    key(rt, &o.investor_id);
}

fn put_fills(rt: &impl Output, s: &Session) {
    for f in s.fills.iter().take(s.fill_count) {
        put_fill(rt, f);
    }
}

fn put_fill(rt: &impl Output, f: &Fill) {
    key(rt, &f.buyer);
    key(rt, &f.seller);
    field(rt, f.qty);
    flag(rt, f.rofr);
    flag(rt, f.settled);
}
