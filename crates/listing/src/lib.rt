// The text of a listing: each line writer is lent the part of the output after the lines already there.
#![tactic(auto)]

ghost use Rattle.std.specs.Prelude.{◌≡◌, ◌*◌, ◌≤◌, nat_le, length};
ghost use Rattle.refusals.specs.Number.{refusal_in};
ghost use Rattle.octets.specs.Puts.{Puts};
ghost use Rattle.octets.specs.Writing.{Writes};
ghost use Rattle.events.specs.Events.{max_events};
ghost use Rattle.listing.specs.Lines.{said_line, event_lines, record_lines, end_line, max_line, max_record};

use events::{Event, MAX_EVENTS};
use octets::writing::{MAX_DIGITS, put_text};
use refusals::Refusal;

pub mod causes;
pub mod claims;
mod lines;

// The most letters of a word.
const MAX_LETTERS: usize = 10;

// The most figures of a line: a print's.
const MAX_FIGURES: usize = 6;

// A line at its longest: the record's number, a space, a word, figures with a space before each, a newline.
const MAX_LINE: usize = MAX_DIGITS + 1 + MAX_LETTERS + MAX_FIGURES * (1 + MAX_DIGITS) + 1;

// Room for any record's lines, and for the last line.
pub const ROOM: usize = MAX_EVENTS * MAX_LINE;

// A record's lines at the start of out, `none` where there is no event; where they are longer than out, 27, and out is left as it was. ROOM is enough
// for any call's.
#[tactic(auto, unfolding(octets::specs::Writing::written, octets::specs::Writing::after), using(crate::proofs::Records::none_short))]
pub fn put_events(out: &mut [u8], number: u64, events: &[Event]) -> Result<usize, Refusal>
    ensures lines { Writes (record_lines number events.now) result out.old out.new }
    ensures room { length events.now ≤ max_events → max_record ≤ length out.old → refusal_in result ≡ 0 }
{
    if events.is_empty() {
        return put_said(out, number, None);
    }
    if events.len() <= out.len() / MAX_LINE {
        return Ok(put_all(out, number, events));
    }
    if !fits(number, events, out.len()) {
        return Err(Refusal::OutputTooSmall);
    }
    put_lines(out, number, events)
}

// The lines of some events, where any lines of so many fit.
#[tactic(auto, unfolding(crate::specs::Lines::event_lines))]
fn put_all(out: &mut [u8], number: u64, events: &[Event]) -> usize
    requires { max_line * length events.now ≤ length out.old }
    ensures { Puts (event_lines number events.now) 0 result out.old out.new × (result ≤ max_line * length events.now) }
{
    let mut k = 0;
    for event in events {
        k += lines::put(&mut out[k..], number, Some(*event));
    }
    k
}

// Whether the lines of some events are no longer than that.
#[tactic(auto, unfolding(crate::specs::Lines::event_lines), using(crate::proofs::Records::lengths_more, crate::proofs::Records::lines_within))]
fn fits(number: u64, events: &[Event], room: usize) -> bool
    ensures { result ≡ nat_le (length (event_lines number events.now)) room }
{
    let mut line = [0u8; MAX_LINE];
    let mut left = room;
    for event in events {
        let len = lines::put(&mut line, number, Some(*event));
        if left < len {
            return false;
        }
        left -= len;
    }
    true
}

// The lines of some events, where they fit.
#[tactic(auto, unfolding(crate::specs::Lines::event_lines, octets::specs::Writing::written, octets::specs::Writing::after))]
fn put_lines(out: &mut [u8], number: u64, events: &[Event]) -> Result<usize, Refusal>
    requires { length (event_lines number events.now) ≤ length out.old }
    ensures { Writes (event_lines number events.now) result out.old out.new }
{
    let mut k = 0;
    for event in events {
        k += put_said(&mut out[k..], number, Some(*event))?;
    }
    Ok(k)
}

// One line, likewise: where out may be shorter, by way of a buffer.
#[tactic(auto, unfolding(octets::specs::Writing::written, octets::specs::Writing::after))]
fn put_said(out: &mut [u8], number: u64, event: Option<Event>) -> Result<usize, Refusal>
    ensures { Writes (said_line number event) result out.old out.new }
{
    if MAX_LINE <= out.len() {
        return Ok(lines::put(out, number, event));
    }
    let mut line = [0u8; MAX_LINE];
    let len = lines::put(&mut line, number, event);
    put_text(out, &line[..len])
}

// The last line, likewise.
#[tactic(auto, unfolding(octets::specs::Writing::written, octets::specs::Writing::after))]
pub fn put_end(out: &mut [u8], accepted: bool, phase: u8, skipped: u32) -> Result<usize, Refusal>
    ensures line { Writes (end_line accepted phase skipped) result out.old out.new }
    ensures room { max_record ≤ length out.old → refusal_in result ≡ 0 }
{
    if MAX_LINE <= out.len() {
        return Ok(lines::put_last(out, accepted, phase, skipped));
    }
    let mut line = [0u8; MAX_LINE];
    let len = lines::put_last(&mut line, accepted, phase, skipped);
    put_text(out, &line[..len])
}
