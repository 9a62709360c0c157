// A listing part by part, for who has no room for a whole one: a record's lines, or the last line.
ghost use Rattle.std.specs.Prelude.{◌≡◌, ◌≤◌, length};
ghost use Rattle.refusals.specs.Number.{refusal_in};
ghost use Rattle.octets.specs.Writing.{Writes};
ghost use Rattle.listing.specs.Lines.{max_record};
ghost use Rattle.session_file.specs.Parts.{begun, part_at, cursor_after, PartPut};

use crate::file::{self, Place};
use auction_engine::Session;
use events::Event;
use refusals::Refusal;

// Where a listing stands: the file's place and session, and the number of the next record.
#[derive(Clone, Copy, Drop)]
pub struct Cursor {
    pub place: Place,
    pub number: u64,
    // 26 is to be said of the whole input.
    pub too_long: bool,
    // The last line was put.
    pub ended: bool,
    pub session: Session,
}

// Before the first part. The caller says whether its input was longer than MAX_INPUT.
pub fn begin(too_long: bool) -> Cursor
    ensures { result ≡ begun too_long }
{
    Cursor {
        place: file::first_place(),
        number: 0,
        too_long,
        ended: false,
        session: file::unopened(),
    }
}

// A part: what its writer answered, and where the listing then stands.
#[derive(Clone, Copy, Drop)]
pub struct Part {
    pub written: Result<usize, Refusal>,
    pub cursor: Cursor,
}

// The next part at the start of out, and nothing once the last line was put; where it is longer than out, 27, and the listing stands where it stood.
pub fn put_next(input: &[u8], s: Cursor, out: &mut [u8]) -> Part
    ensures { PartPut input.now s result out.old out.new }
{
    let mut next = s;
    let written = put_part(input, &mut next, out);
    let cursor = if written.is_ok() { next } else { s };
    Part { written, cursor }
}

// The same, where the listing goes on even where the part is longer than out.
fn put_part(input: &[u8], s: &mut Cursor, out: &mut [u8]) -> Result<usize, Refusal>
    ensures lines { Writes (part_at input.now s.old) result out.old out.new }
    ensures cursor { s.new ≡ cursor_after input.now s.old }
    ensures room { max_record ≤ length out.old → refusal_in result ≡ 0 }
{
    if s.ended {
        return Ok(0);
    }
    let number = s.number;
    if s.too_long {
        s.number = number.wrapping_add(1);
        s.too_long = false;
        s.place.at = input.len();
        let refused = Event::Refused(Refusal::InputTooLong.number());
        return listing::put_events(out, number, &[refused]);
    }
    if s.place.at < input.len() {
        s.number = number.wrapping_add(1);
        return file::put_record(input, &mut s.place, &mut s.session, number, out);
    }
    s.ended = true;
    file::put_last(&s.place, &s.session, out)
}
