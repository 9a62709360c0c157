// What a print discloses.
#![tactic(auto)]

ghost use Rattle.std.specs.Prelude.{◌≡◌, if◌then◌else◌, ◌*◌, ◌/◌, ◌≤◌, nat_le, Ok, Err};
ghost use Rattle.refusals.specs.declared.Refusal.TheVariants.{OverLimit};
ghost use Rattle.disclosure.specs.Disclosure.{max_band, banded, band_answer, disclose_answer};
ghost use Rattle.disclosure.specs.Answers.{banded_of, disclosed_of, Shows, Reads};

use refusals::Refusal;

// A band above this is refused: its width could be 0 or pass 64 bits.
pub const MAX_BAND: u64 = 10_000;

// What is disclosed of a print.
#[derive(Clone, Copy, Debug, PartialEq, Eq)]
pub enum Policy {
    Public,
    Banded,
    AggregateOnly,
    DataRoom,
}

impl TryFrom<u8> for Policy {
    type Error = Refusal;

    ghost try_from_gives = { Reads };

    fn try_from(policy: u8) -> Result<Policy, Refusal> {
        match policy {
            0 => Ok(Policy::Public),
            1 => Ok(Policy::Banded),
            2 => Ok(Policy::AggregateOnly),
            3 => Ok(Policy::DataRoom),
            _ => Err(Refusal::BadField),
        }
    }
}

// The figures of a print: 0 for what is withheld.
#[derive(Clone, Copy, Debug, PartialEq, Eq)]
pub struct Disclosed {
    pub price: u64,
    pub volume: u64,
}

// The price rounded down to its band.
#[tactic(auto, unfolding(crate::specs::Disclosure::band_answer))]
pub fn band(price: u64, band_bps: u64) -> Result<u64, Refusal>
    ensures { banded_of result ≡ band_answer price band_bps }
{
    band_refusal(band_bps)?;
    Ok(band_of(price, band_bps))
}

// 9 a band above the limit.
fn band_refusal(band_bps: u64) -> Result<(), Refusal>
    ensures { result ≡ (if nat_le band_bps max_band then Ok tt else Err OverLimit) }
{
    Refusal::OverLimit.unless(band_bps <= MAX_BAND)
}

#[tactic(auto, unfolding(crate::specs::Disclosure::banded, crate::specs::Disclosure::width))]
fn band_of(price: u64, band_bps: u64) -> u64
    requires { band_bps ≤ max_band }
    ensures { result ≡ banded price band_bps }
{
    let width = part_of(price, band_bps).max(1);
    price / width * width
}

// price * band_bps / 10000, with no number above 64 bits.
fn part_of(price: u64, band_bps: u64) -> u64
    requires { band_bps ≤ max_band }
    ensures { result ≡ price * band_bps / 10000 }
{
    let a = price / 10000;
    let b = price % 10000;
    a * band_bps + b * band_bps / 10000
}

// What a policy discloses of a price and a volume.
#[tactic(auto, unfolding(crate::specs::Disclosure::disclose_answer))]
pub fn disclose(policy: u8, band_bps: u64, price: u64, volume: u64) -> Result<Disclosed, Refusal>
    ensures { disclosed_of result ≡ disclose_answer policy band_bps price volume }
{
    band_refusal(band_bps)?;
    let policy = Policy::try_from(policy)?;
    Ok(shown(policy, band_bps, price, volume))
}

// By the policy: all; the price in its band; the volume alone; nothing.
#[tactic(auto, unfolding(crate::specs::Disclosure::shown))]
fn shown(policy: Policy, band_bps: u64, price: u64, volume: u64) -> Disclosed
    requires { band_bps ≤ max_band }
    ensures { Shows policy band_bps price volume result }
{
    match policy {
        Policy::Public => Disclosed { price, volume },
        Policy::Banded => Disclosed {
            price: band_of(price, band_bps),
            volume,
        },
        Policy::AggregateOnly => Disclosed { price: 0, volume },
        Policy::DataRoom => Disclosed {
            price: 0,
            volume: 0,
        },
    }
}
