// What a record of a file does to the session, and what is said of it.
ghost use Rattle.std.specs.Prelude.{◌≡◌, false, ◌<◌, ◌≤◌, ◌==◌, if◌then◌else◌, IfOk, OnErr, length};
ghost use Rattle.refusals.specs.Number.{refusal_in};
ghost use Rattle.octets.specs.Writing.{Writes};
ghost use Rattle.listing.specs.Lines.{record_lines, max_record};
ghost use Rattle.auction_engine.specs.declared.Call.TheVariants as call;
ghost use Rattle.auction_engine.specs.Engine.{is_allocate, answer};
ghost use Rattle.session_file.specs.File.{unopened, file_refusal, made, said_by, last_line};
ghost use Rattle.session_file.specs.Parts.{state_at, first_place, after_record};
ghost use Rattle.session_file.specs.Steps.{next_read, read_of, said_all, refused_by};

use crate::fields::{self, Fields};
use crate::records;
use auction_engine::{Call, Session, opening};
use book::{Given, Params};
use events::Event;
use refusals::Refusal;

// Where a file stands: the place of its next record, the kind of the record before, and what its header asks of escrows.
#[derive(Clone, Copy, Drop)]
pub struct Place {
    pub at: usize,
    pub stage: u8,
    pub cover: Option<u8>,
}

// Before the first record.
pub(crate) fn first_place() -> Place
    ensures { result ≡ first_place }
{
    Place {
        at: 0,
        stage: records::NO_KIND,
        cover: None,
    }
}

// The session before the header: nobody sees it.
#[tactic(auto, unfolding(crate::specs::File::unopened))]
pub(crate) fn unopened() -> Session
    ensures { result ≡ unopened }
{
    Session::new(Params::default(), Given::default())
}

// The record at the place, where bytes are left: its lines at the start of out, what it makes of the session, and the place after it. A file refusal ends
// the file. Where the lines are longer than out, 27, and only out is as it was.
pub(crate) fn put_record(
    input: &[u8],
    place: &mut Place,
    session: &mut Session,
    number: u64,
    out: &mut [u8],
) -> Result<usize, Refusal>
    requires { place.old.at < length input.now }
    ensures place { place.new ≡ (after_record input.now place.old session.old).place }
    ensures session { session.new ≡ (after_record input.now place.old session.old).session }
    ensures lines { Writes (record_lines number (after_record input.now place.old session.old).said) result out.old out.new }
    ensures room { max_record ≤ length out.old → refusal_in result ≡ 0 }
{
    match put_read(input, place, session, number, out) {
        Ok(written) => written,
        Err(refusal) => {
            place.at = input.len();
            put_refused(out, number, refusal)
        }
    }
}

// The same, but what ends the file is answered, and then nothing is changed.
#[tactic(auto, using(auction_engine::proofs::Steps::numbered), unfolding(crate::specs::File::file_refusal))]
pub(crate) fn put_read(
    input: &[u8],
    place: &mut Place,
    session: &mut Session,
    number: u64,
    out: &mut [u8],
) -> Result<Result<usize, Refusal>, Refusal>
    requires { place.old.at < length input.now }
    ensures refusal { refusal_in result ≡ file_refusal (state_at place.old session.old) (next_read input.now place.old) }
    ensures place { IfOk result (λ _. place.new ≡ (after_record input.now place.old session.old).place) }
    ensures session { session.new ≡ (after_record input.now place.old session.old).session }
    ensures lines { IfOk result (λ written. Writes (record_lines number (after_record input.now place.old session.old).said) written out.old out.new) }
    ensures room { IfOk result (λ written. max_record ≤ length out.old → refusal_in written ≡ 0) }
    ensures kept { OnErr result ((place.new ≡ place.old) × (out.new ≡ out.old)) }
{
    let r = fields::record_at(input, place)?;
    let written = put_fields(place, session, &r.fields, number, out)?;
    place.at += r.width;
    place.stage = r.kind;
    if let Fields::Header { cover, .. } = r.fields {
        place.cover = cover;
    }
    Ok(written)
}

// What a record makes of the session, and its lines. A refused header or order ends the file, and so does a call with an argument outside its values.
#[tactic(auto, using(crate::proofs::Stepping::said_answer), unfolding(crate::specs::File::file_refusal, crate::specs::File::made, crate::specs::File::said_by))]
fn put_fields(
    place: &Place,
    session: &mut Session,
    fields: &Fields,
    number: u64,
    out: &mut [u8],
) -> Result<Result<usize, Refusal>, Refusal>
    ensures refusal { refusal_in result ≡ file_refusal (state_at place.now session.old) (read_of fields.now) }
    ensures session { session.new ≡ (if file_refusal (state_at place.now session.old) (read_of fields.now) == 0 then (made (state_at place.now session.old) (read_of fields.now)).session else session.old) }
    ensures lines { IfOk result (λ written. Writes (record_lines number (said_by (state_at place.now session.old) (read_of fields.now))) written out.old out.new) }
    ensures room { IfOk result (λ written. max_record ≤ length out.old → refusal_in written ≡ 0) }
    ensures kept { OnErr result (out.new ≡ out.old) }
{
    match fields {
        Fields::Header {
            params,
            given,
            cover,
        } => {
            opening::header_refusal(params, given, *cover)?;
            *session = Session::new(*params, *given);
            Ok(listing::put_events(out, number, &[Event::Opened]))
        }
        Fields::Order(row) => {
            let said = opening::add_order(session, place.cover, row)?;
            Ok(listing::put_events(out, number, &[said]))
        }
        Fields::Call(call) => {
            call.arguments_refusal()?;
            Ok(put_call(session, call, number, out))
        }
    }
}

// A call made, and its events; of a refused one its refusal.
fn put_call(
    session: &mut Session,
    call: &Call,
    number: u64,
    out: &mut [u8],
) -> Result<usize, Refusal>
    ensures session { session.new ≡ (answer session.old call.now).session }
    ensures lines { Writes (record_lines number (said_all (answer session.old call.now))) result out.old out.new }
    ensures room { max_record ≤ length out.old → refusal_in result ≡ 0 }
{
    match call {
        Call::Allocate { now, max_fills } => put_allocate(session, *now, *max_fills, number, out),
        _ => put_few(session, call, number, out),
    }
}

// An allocate, by itself: a function pays at its entry for the room of its events.
#[tactic(auto, unfolding(auction_engine::specs::Engine::answer))]
fn put_allocate(
    session: &mut Session,
    now: i64,
    max_fills: u8,
    number: u64,
    out: &mut [u8],
) -> Result<usize, Refusal>
    ensures session { session.new ≡ (answer session.old (call.Allocate now max_fills)).session }
    ensures lines { Writes (record_lines number (said_all (answer session.old (call.Allocate now max_fills)))) result out.old out.new }
    ensures room { max_record ≤ length out.old → refusal_in result ≡ 0 }
{
    match session.allocate_here(now, max_fills) {
        Ok(fills) => listing::put_events(out, number, fills.as_slice()),
        Err(refusal) => put_refused(out, number, refusal),
    }
}

// Any other call.
#[tactic(auto, unfolding(auction_engine::specs::Engine::answer))]
fn put_few(
    session: &mut Session,
    call: &Call,
    number: u64,
    out: &mut [u8],
) -> Result<usize, Refusal>
    requires { is_allocate call.now ≡ false }
    ensures session { session.new ≡ (answer session.old call.now).session }
    ensures lines { Writes (record_lines number (said_all (answer session.old call.now))) result out.old out.new }
    ensures room { max_record ≤ length out.old → refusal_in result ≡ 0 }
{
    match session.make_few(call) {
        Ok(said) => listing::put_events(out, number, said.as_slice()),
        Err(refusal) => put_refused(out, number, refusal),
    }
}

fn put_refused(out: &mut [u8], number: u64, refusal: Refusal) -> Result<usize, Refusal>
    ensures lines { Writes (record_lines number (refused_by refusal)) result out.old out.new }
    ensures room { max_record ≤ length out.old → refusal_in result ≡ 0 }
{
    listing::put_events(out, number, &[Event::Refused(refusal.number())])
}

// The last line.
pub(crate) fn put_last(place: &Place, session: &Session, out: &mut [u8]) -> Result<usize, Refusal>
    ensures line { Writes (last_line (state_at place.now session.now)) result out.old out.new }
    ensures room { max_record ≤ length out.old → refusal_in result ≡ 0 }
{
    let accepted = place.stage != records::NO_KIND;
    listing::put_end(out, accepted, session.phase, session.skipped_fills)
}
