// One line, where there is room for any.
ghost use Rattle.std.specs.Prelude.{[], ◌∷◌, ◌++◌, ◌+◌, ◌*◌, ◌≤◌, length};
ghost use Rattle.octets.specs.Decimal.{max_digits};
ghost use Rattle.octets.specs.Puts.{Puts};
ghost use Rattle.events.specs.declared.Event.TheVariants.{ClearingPrint};
ghost use Rattle.listing.specs.Words.{newline};
ghost use Rattle.listing.specs.Lines.{fields, line, said_line, event_line, bare_line, end_line, max_letters, max_figures, max_line};

use events::{Event, Print};
use octets::writing::{put_bytes, put_dec};

// `none`, or an event's line.
pub(crate) fn put(out: &mut [u8], number: u64, event: Option<Event>) -> usize
    requires { max_line ≤ length out.old }
    ensures { Puts (said_line number event) 0 result out.old out.new × (result ≤ max_line) }
{
    match event {
        None => put_line(out, number, b"none", &[]),
        Some(event) => put_event(out, number, &event),
    }
}

fn put_event(out: &mut [u8], number: u64, event: &Event) -> usize
    requires { max_line ≤ length out.old }
    ensures { Puts (event_line number event.now) 0 result out.old out.new × (result ≤ max_line) }
{
    match *event {
        Event::Nothing => put_line(out, number, b"none", &[]),
        Event::OrderScreened { order, exclusion } => {
            put_line(out, number, b"screen", &[order.into(), exclusion.into()])
        }
        Event::Cleared {
            price,
            volume,
            reserve,
            reference,
        } => put_line(out, number, b"clear", &[price, volume, reserve, reference]),
        Event::SessionFailed(reason) => put_line(out, number, b"failed", &[reason.into()]),
        Event::FillAllocated {
            fill,
            buy,
            sell,
            qty,
        } => put_line(
            out,
            number,
            b"fill",
            &[fill.into(), buy.into(), sell.into(), qty],
        ),
        Event::RofrExercised {
            fill,
            new,
            qty,
            price,
        } => put_line(out, number, b"rofr", &[fill.into(), new.into(), qty, price]),
        Event::RofrClosed(qty) => put_line(out, number, b"close", &[qty]),
        Event::FillSettled { fill, qty, price } => {
            put_line(out, number, b"settle", &[fill.into(), qty, price])
        }
        Event::FillSkipped { fill, qty, reason } => {
            put_line(out, number, b"skip", &[fill.into(), qty, reason.into()])
        }
        Event::ClearingPrint(print) => put_print(out, number, &print),
        Event::PhaseChanged { from, to } => {
            put_line(out, number, b"phase", &[from.into(), to.into()])
        }
        Event::Opened => put_line(out, number, b"open", &[]),
        Event::Ordered(order) => put_line(out, number, b"order", &[order]),
        Event::Refused(refusal) => put_line(out, number, b"refused", &[refusal.into()]),
    }
}

fn put_print(out: &mut [u8], number: u64, p: &Print) -> usize
    requires { max_line ≤ length out.old }
    ensures { Puts (event_line number (ClearingPrint p.now)) 0 result out.old out.new × (result ≤ max_line) }
{
    let figures = [
        p.price,
        p.volume,
        p.n_investor_ids,
        p.forced_sale.into(),
        p.policy.into(),
        p.partial.into(),
    ];
    put_line(out, number, b"print", &figures)
}

// The record's number, a space, a word, and the figures.
fn put_line(out: &mut [u8], number: u64, word: &[u8], figures: &[u64]) -> usize
    requires { (length word.now ≤ max_letters) × (length figures.now ≤ max_figures) × (max_line ≤ length out.old) }
    ensures { Puts (line number word.now figures.now) 0 result out.old out.new × (result ≤ max_line) }
{
    let k = put_dec(out, 0, number);
    out[k] = b' ';
    let end = put_bytes(out, k + 1, word);
    put_figures(out, end, figures)
}

// The figures, with a space before each, and a newline.
#[tactic(auto, unfolding(crate::specs::Lines::fields), using(octets::proofs::Spliced::puts_none))]
fn put_figures(out: &mut [u8], at: usize, figures: &[u64]) -> usize
    requires { (length figures.now ≤ max_figures) × (at + (max_figures * (1 + max_digits) + 1) ≤ length out.old) }
    ensures { Puts (fields figures.now ++ newline ∷ []) at result out.old out.new × (result ≤ at + (max_figures * (1 + max_digits) + 1)) }
{
    let mut k = at;
    for &figure in figures {
        out[k] = b' ';
        k = put_dec(out, k + 1, figure);
    }
    out[k] = b'\n';
    k + 1
}

// The last line: phase and number of skipped fills, or `none` without an accepted header.
#[tactic(auto, unfolding(crate::specs::Lines::end_line))]
pub(crate) fn put_last(out: &mut [u8], accepted: bool, phase: u8, skipped: u32) -> usize
    requires { max_line ≤ length out.old }
    ensures { Puts (end_line accepted phase skipped) 0 result out.old out.new × (result ≤ max_line) }
{
    if !accepted {
        return put_bytes(out, 0, b"end none\n");
    }
    put_bare(out, b"end", &[phase.into(), skipped.count_ones().into()])
}

// A line without record number: a word and the figures.
pub(crate) fn put_bare(out: &mut [u8], word: &[u8], figures: &[u64]) -> usize
    requires { (length word.now ≤ max_letters) × (length figures.now ≤ max_figures) × (max_line ≤ length out.old) }
    ensures { Puts (bare_line word.now figures.now) 0 result out.old out.new × (result ≤ max_line) }
{
    let end = put_bytes(out, 0, word);
    put_figures(out, end, figures)
}
