// The fields of a record: a match over its mark chooses the reader. `rec` is the record's own bytes, its mark first.
ghost use Rattle.std.specs.Prelude.{◌≡◌, ◌+◌, ◌<◌, ◌≤◌, IfOk, length, drop};
ghost use Rattle.session_file.specs.declared.fields.Fields.TheVariants as fields;
ghost use Rattle.session_file.specs.Fields.{params_of, given_of, row_of, fields_of};
ghost use Rattle.session_file.specs.Reads.{shape_at, read_next};
ghost use Rattle.session_file.specs.Steps.{read_in, read_as};

use crate::file::Place;
use crate::records::Mark;
use crate::{calls, records};
use auction_engine::Call;
use book::{Given, Params, Row};
use octets::reading;
use refusals::Refusal;

// What stands in a record.
#[derive(Clone, Copy, Drop)]
pub(crate) enum Fields {
    // With what the header asks of escrows: `SI` has one byte more than `SH`.
    Header {
        params: Params,
        given: Given,
        cover: Option<u8>,
    },
    Order(Row),
    Call(Call),
}

// A record of a file: its kind, its bytes in all, and its fields.
#[derive(Clone, Copy, Drop)]
pub(crate) struct Record {
    pub kind: u8,
    pub width: usize,
    pub fields: Fields,
}

// The record at a place of a file, or what reading refuses it by.
#[tactic(auto, using(auction_engine::proofs::Steps::numbered), unfolding(crate::specs::Reads::read_next))]
pub(crate) fn record_at(input: &[u8], place: &Place) -> Result<Record, Refusal>
    requires { place.now.at < length input.now }
    ensures read { read_in result ≡ read_next place.now.stage (drop place.now.at input.now) }
    ensures kind { IfOk result (λ r. r.kind ≡ (shape_at (drop place.now.at input.now)).kind) }
    ensures width { IfOk result (λ r. r.width ≡ (shape_at (drop place.now.at input.now)).width) }
    ensures whole { IfOk result (λ r. place.now.at + r.width ≤ length input.now) }
{
    let rest = &input[place.at..];
    let mark = records::mark_next(rest, place.stage)?;
    let (kind, width) = mark.shape();
    let fields = read(mark, &rest[..width])?;
    Ok(Record {
        kind,
        width,
        fields,
    })
}

// The one dispatch. An unknown mark has no fields.
#[tactic(auto, unfolding(crate::specs::Fields::fields_of))]
fn read(mark: Mark, rec: &[u8]) -> Result<Fields, Refusal>
    ensures { read_as result ≡ fields_of mark rec.now }
{
    Ok(match mark {
        Mark::Unknown => return Err(Refusal::UnknownMark),
        Mark::SH => of_header(rec, None),
        Mark::SI => of_header(rec, Some(reading::u8_at(rec, 94))),
        Mark::OR => Fields::Order(row_of(rec)),
        Mark::SC => Fields::Call(calls::read_screen(rec)),
        Mark::CL => Fields::Call(calls::read_clear(rec)),
        Mark::AL => Fields::Call(calls::read_allocate(rec)),
        Mark::RX => Fields::Call(calls::read_exercise(rec)),
        Mark::RC => Fields::Call(calls::read_close(rec)),
        Mark::ST => Fields::Call(calls::read_settle(rec)),
        Mark::SK => Fields::Call(calls::read_skip(rec)),
        Mark::FN => Fields::Call(calls::read_finish(rec)),
        Mark::EX => Fields::Call(calls::read_expire(rec)),
    })
}

fn of_header(rec: &[u8], cover: Option<u8>) -> Fields
    ensures { result ≡ fields.Header (params_of rec.now) (given_of rec.now) cover }
{
    Fields::Header {
        params: params_of(rec),
        given: given_of(rec),
        cover,
    }
}

#[tactic(auto, unfolding(crate::specs::Fields::params_of))]
fn params_of(rec: &[u8]) -> Params
    ensures { result ≡ params_of rec.now }
{
    Params {
        reveal_end: reading::time_at(rec, 2),
        rofr_window: reading::time_at(rec, 10),
        settle_deadline: reading::time_at(rec, 18),
        max_cash: reading::u64_at(rec, 26),
        min_reveals: reading::u8_at(rec, 34),
        forced: reading::flag_at(rec, 35),
        rofr_authority: reading::bytes_at(rec, 36),
    }
}

#[tactic(auto, unfolding(crate::specs::Fields::given_of))]
fn given_of(rec: &[u8]) -> Given
    ensures { result ≡ given_of rec.now }
{
    Given {
        mark: reading::flag_at(rec, 68),
        reserve: reading::u64_at(rec, 69),
        reference: reading::u64_at(rec, 77),
        policy: reading::u8_at(rec, 85),
        band_bps: reading::u64_at(rec, 86),
    }
}

#[tactic(auto, unfolding(crate::specs::Fields::row_of))]
fn row_of(rec: &[u8]) -> Row
    ensures { result ≡ row_of rec.now }
{
    Row {
        owner: reading::bytes_at(rec, 2),
        side: reading::u8_at(rec, 34),
        escrowed: reading::u64_at(rec, 35),
        revealed: reading::flag_at(rec, 43),
        limit: reading::u64_at(rec, 44),
        qty: reading::u64_at(rec, 52),
    }
}
