// The records of a session file: their marks, and whether what stands next may be read.
ghost use Rattle.std.specs.Prelude.{◌≡◌, ◌≤◌, IfOk, OnOk, take, drop, nat_le, length};
ghost use Rattle.refusals.specs.Number.{refusal_in};
ghost use Rattle.laws.specs.Checks.{unless};
ghost use Rattle.octets.specs.Bytes.{word};
ghost use Rattle.session_file.specs.Marks.{mark_of, shape_of, in_place};
ghost use Rattle.session_file.specs.Reads.{flags_refusal, mark_at, shape_at, reading_refusal};

use octets::reading;
use refusals::Refusal;

// What a mark says.
#[derive(Clone, Copy, Debug, PartialEq, Eq)]
pub enum Mark {
    Unknown,
    SH,
    SI,
    OR,
    SC,
    CL,
    AL,
    RX,
    RC,
    ST,
    SK,
    FN,
    EX,
}

// The kinds of records, in the order in which they stand in a file.
pub const NO_KIND: u8 = 0;

pub const HEADER: u8 = 1;

pub const ORDER: u8 = 2;

pub const CALL: u8 = 3;

// The mark of two bytes, read as one little-endian number.
fn mark_of(m: u16) -> Mark
    ensures { result ≡ mark_of m }
{
    match m {
        0x4853 => Mark::SH,
        0x4953 => Mark::SI,
        0x524f => Mark::OR,
        0x4353 => Mark::SC,
        0x4c43 => Mark::CL,
        0x4c41 => Mark::AL,
        0x5852 => Mark::RX,
        0x4352 => Mark::RC,
        0x5453 => Mark::ST,
        0x4b53 => Mark::SK,
        0x4e46 => Mark::FN,
        0x5845 => Mark::EX,
        _ => Mark::Unknown,
    }
}

impl Mark {
    // The kind of its record, and the record's bytes in all.
    #[tactic(auto, unfolding(crate::specs::Marks::shape_of))]
    pub fn shape(self) -> (u8, usize)
        ensures kind { result.0 ≡ (shape_of self).kind }
        ensures width { result.1 ≡ (shape_of self).width }
    {
        match self {
            Mark::Unknown => (NO_KIND, 2),
            Mark::SH => (HEADER, 94),
            Mark::SI => (HEADER, 95),
            Mark::OR => (ORDER, 60),
            Mark::SC => (CALL, 30),
            Mark::CL | Mark::FN | Mark::EX => (CALL, 10),
            Mark::AL => (CALL, 11),
            Mark::RX => (CALL, 54),
            Mark::RC => (CALL, 42),
            Mark::ST => (CALL, 6),
            Mark::SK => (CALL, 15),
        }
    }

    // 4: one of the record's flags is not 0 or 1.
    #[tactic(auto, unfolding(laws::specs::Checks::unless, laws::specs::Checks::first_of, crate::specs::Marks::shape_of, crate::specs::Reads::flags_refusal))]
    fn flags_refusal(self, rec: &[u8]) -> Result<(), Refusal>
        ensures { refusal_in result ≡ flags_refusal rec.now (shape_of self).flags }
    {
        match self {
            Mark::SH | Mark::SI => {
                flag_refusal(rec, 35)?;
                flag_refusal(rec, 68)
            }
            Mark::OR => flag_refusal(rec, 43),
            Mark::SC => flag_refusal(rec, 13),
            _ => Ok(()),
        }
    }
}

#[tactic(auto, unfolding(laws::specs::Checks::unless))]
fn flag_refusal(rec: &[u8], at: usize) -> Result<(), Refusal>
    ensures { refusal_in result ≡ unless (nat_le (word 1 rec.now at) 1) 4 }
{
    Refusal::BadField.unless(reading::u8_at(rec, at) <= 1)
}

// One header first, then orders, then calls.
#[tactic(auto, unfolding(crate::specs::Marks::in_place))]
fn in_place(before: u8, kind: u8) -> bool
    ensures { result ≡ in_place before kind }
{
    if kind == HEADER {
        return before == NO_KIND;
    }
    (0 < before) & (before <= kind)
}

// The mark of what is left of a file, where its record may be read: 1 no whole mark; 2 unknown; 3 out of order; 1 cut; 4 a flag outside its values.
#[tactic(auto, unfolding(laws::specs::Checks::unless, laws::specs::Checks::first_of, crate::specs::Reads::reading_refusal))]
pub(crate) fn mark_next(rest: &[u8], before: u8) -> Result<Mark, Refusal>
    ensures refusal { refusal_in result ≡ reading_refusal before rest.now }
    ensures mark { IfOk result (λ m. m ≡ mark_at rest.now) }
    ensures whole { OnOk result ((shape_at rest.now).width ≤ length rest.now) }
{
    Refusal::NoRecord.unless(2 <= rest.len())?;
    let mark = mark_of(reading::u16_at(rest, 0));
    let (kind, width) = mark.shape();
    Refusal::UnknownMark.unless(0 < kind)?;
    Refusal::OutOfOrder.unless(in_place(before, kind))?;
    Refusal::NoRecord.unless(width <= rest.len())?;
    mark.flags_refusal(&rest[..width])?;
    Ok(mark)
}
