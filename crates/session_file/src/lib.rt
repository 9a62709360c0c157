// Session files: read record by record, run, and listed.
#![tactic(auto)]

ghost use Rattle.std.specs.Prelude.{◌≤◌, length};
ghost use Rattle.session_file.specs.File.{max_input};
ghost use Rattle.session_file.specs.Entry.{Listed, Entered};
ghost use Rattle.session_file.specs.Ended.{Ended};
ghost use Rattle.session_file.specs.Steps.{Ran};

use auction_engine::Session;
use refusals::Refusal;

mod calls;
pub mod claims;
mod fields;
mod file;
pub mod parts;
mod records;

// The longest file.
pub const MAX_INPUT: usize = 65536;

// The listing of a file at the start of the output, and its length; or 26 or 27, and the whole output zeroed.
pub fn list_file(input: &[u8], out: &mut [u8]) -> Result<usize, Refusal>
    ensures { Listed input.now result out.old out.new }
{
    if MAX_INPUT < input.len() {
        out.fill(0);
        return Err(Refusal::InputTooLong);
    }
    match run_file(input, out) {
        Ok(len) => Ok(len),
        Err(refusal) => {
            out.fill(0);
            Err(refusal)
        }
    }
}

// The same for a host in C or Rust: the length, or the refusal negated.
#[unsafe(no_mangle)]
pub extern "C" fn clear_session_file(input: &[u8], out: &mut [u8]) -> i64
    ensures { Entered input.now result out.old out.new }
{
    match list_file(input, out) {
        Ok(len) => len as i64,
        Err(refusal) => -(refusal.number() as i64),
    }
}

// The session that a file ends with; or 26, the refusal that ends the file, or 1 where it has no record.
pub fn session_of(input: &[u8]) -> Result<Session, Refusal>
    ensures { Ended input.now result }
{
    if MAX_INPUT < input.len() {
        return Err(Refusal::InputTooLong);
    }
    let mut session = file::unopened();
    let mut place = file::first_place();
    while place.at < input.len() {
        // Its lines are put nowhere.
        let _ = file::put_read(input, &mut place, &mut session, 0, &mut [])?;
    }
    if place.stage == records::NO_KIND {
        return Err(Refusal::NoRecord);
    }
    Ok(session)
}

// The records in turn, each record's lines in the part after those already there.
fn run_file(input: &[u8], out: &mut [u8]) -> Result<usize, Refusal>
    requires { length input.now ≤ max_input }
    ensures { Ran input.now result out.old out.new }
{
    let mut session = file::unopened();
    let mut place = file::first_place();
    let mut number = 0;
    let mut at = 0;
    while place.at < input.len() {
        at += file::put_record(input, &mut place, &mut session, number, &mut out[at..])?;
        number += 1;
    }
    Ok(at + file::put_last(&place, &session, &mut out[at..])?)
}
