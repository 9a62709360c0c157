// The line of an order's cause: why it got its lot.
ghost use Rattle.std.specs.Prelude.{◌≤◌, length};
ghost use Rattle.octets.specs.Puts.{Puts};
ghost use Rattle.octets.specs.Writing.{Writes};
ghost use Rattle.listing.specs.Lines.{max_line};
ghost use Rattle.listing.specs.Causes.{cause_line};

use crate::MAX_LINE;
use crate::lines::put_bare;
use octets::writing::put_text;
use refusals::Refusal;

#[derive(Clone, Copy, Debug, PartialEq, Eq)]
pub enum Cause {
    Unrevealed,
    // The exclusion kind.
    Excluded(u8),
    // The limit lies on the wrong side of the price.
    Priced { limit: u64, price: u64 },
    // The lot, a share alone.
    Share(u64),
    // The lot, a share and a unit of the residue, and the unit's turn on the order's side.
    Residue { lot: u64, turn: u64 },
}

// The line at the start of out, and its length; where it is longer than out, 27, and out is left as it was.
pub fn put_cause(out: &mut [u8], order: u64, cause: Cause) -> Result<usize, Refusal>
    ensures { Writes (cause_line order cause) result out.old out.new }
{
    let mut line = [0u8; MAX_LINE];
    let len = put(&mut line, order, cause);
    put_text(out, &line[..len])
}

// The same, where there is room for any line.
fn put(out: &mut [u8], order: u64, cause: Cause) -> usize
    requires { max_line ≤ length out.old }
    ensures { Puts (cause_line order cause) 0 result out.old out.new × (result ≤ max_line) }
{
    match cause {
        Cause::Unrevealed => put_bare(out, b"unrevealed", &[order]),
        Cause::Excluded(kind) => put_bare(out, b"excluded", &[order, kind.into()]),
        Cause::Priced { limit, price } => put_bare(out, b"priced", &[order, limit, price]),
        Cause::Share(lot) => put_bare(out, b"share", &[order, lot]),
        Cause::Residue { lot, turn } => put_bare(out, b"residue", &[order, lot, turn]),
    }
}
