// The readers of calls, one for each mark. `rec` is the record's own bytes.
ghost use Rattle.std.specs.Prelude.{◌≡◌};
ghost use Rattle.auction_engine.specs.declared.Call.TheVariants as call;
ghost use Rattle.octets.specs.Bytes.{word, bytes_at, time_at, flag_at};

use auction_engine::Call;
use octets::reading;

pub fn read_screen(rec: &[u8]) -> Call
    ensures { result ≡ call.Screen (time_at rec.now 2) (word 1 rec.now 10) (word 1 rec.now 11) (word 1 rec.now 12) (flag_at rec.now 13) (bytes_at 16 rec.now 14) }
{
    Call::Screen {
        now: reading::time_at(rec, 2),
        order: reading::u8_at(rec, 10),
        side: reading::u8_at(rec, 11),
        verdict: reading::u8_at(rec, 12),
        has_id: reading::flag_at(rec, 13),
        id: reading::bytes_at(rec, 14),
    }
}

pub fn read_exercise(rec: &[u8]) -> Call
    ensures { result ≡ call.Exercise (time_at rec.now 2) (bytes_at 32 rec.now 10) (word 4 rec.now 42) (word 8 rec.now 46) }
{
    Call::Exercise {
        now: reading::time_at(rec, 2),
        issuer: reading::bytes_at(rec, 10),
        fill: reading::u32_at(rec, 42),
        qty: reading::u64_at(rec, 46),
    }
}

pub fn read_close(rec: &[u8]) -> Call
    ensures { result ≡ call.Close (time_at rec.now 2) (bytes_at 32 rec.now 10) }
{
    Call::Close {
        now: reading::time_at(rec, 2),
        caller: reading::bytes_at(rec, 10),
    }
}

pub fn read_skip(rec: &[u8]) -> Call
    ensures { result ≡ call.Skip (time_at rec.now 2) (word 4 rec.now 10) (word 1 rec.now 14) }
{
    Call::Skip {
        now: reading::time_at(rec, 2),
        fill: reading::u32_at(rec, 10),
        reason: reading::u8_at(rec, 14),
    }
}

pub fn read_allocate(rec: &[u8]) -> Call
    ensures { result ≡ call.Allocate (time_at rec.now 2) (word 1 rec.now 10) }
{
    Call::Allocate {
        now: reading::time_at(rec, 2),
        max_fills: reading::u8_at(rec, 10),
    }
}

pub fn read_settle(rec: &[u8]) -> Call
    ensures { result ≡ call.Settle (word 4 rec.now 2) }
{
    Call::Settle {
        fill: reading::u32_at(rec, 2),
    }
}

pub fn read_clear(rec: &[u8]) -> Call
    ensures { result ≡ call.Clear (time_at rec.now 2) }
{
    Call::Clear {
        now: reading::time_at(rec, 2),
    }
}

pub fn read_finish(rec: &[u8]) -> Call
    ensures { result ≡ call.Finish (time_at rec.now 2) }
{
    Call::Finish {
        now: reading::time_at(rec, 2),
    }
}

pub fn read_expire(rec: &[u8]) -> Call
    ensures { result ≡ call.Expire (time_at rec.now 2) }
{
    Call::Expire {
        now: reading::time_at(rec, 2),
    }
}
