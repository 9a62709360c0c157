// Questions that a host asks of a session file.
#![tactic(auto)]

ghost use Rattle.file_inquiries.specs.Entry.{Entered, Told};

use inquiries::why::why;
use refusals::Refusal;
use session_file::session_of;

pub mod claims;

// Why an order of a session file got its lot: the line at the start of the output, and its length; or the refusal negated, and the output as it was.
#[unsafe(no_mangle)]
pub extern "C" fn why_in_session_file(input: &[u8], order: u64, out: &mut [u8]) -> i64
    ensures { Entered input.now order result out.old out.new }
{
    match ask_why(input, order, out) {
        Ok(len) => len as i64,
        Err(refusal) => -(refusal.number() as i64),
    }
}

// The same, for who calls from Rattle.
pub fn ask_why(input: &[u8], order: u64, out: &mut [u8]) -> Result<usize, Refusal>
    ensures { Told input.now order result out.old out.new }
{
    let session = session_of(input)?;
    why(&session, order, out)
}
