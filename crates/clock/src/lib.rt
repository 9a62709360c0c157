// Sums of signed 64-bit times. Internal to this repository.
#![tactic(auto)]

ghost use Rattle.std.specs.Prelude.{◌≡◌, ◌+ℤ◌};
ghost use Rattle.std.specs.Int.Signed.{lt_z};
ghost use Rattle.clock.specs.Clock.{sum_fits};

// Whether a + b is a signed 64-bit number.
pub fn sum_fits(a: i64, b: i64) -> bool
    ensures { result ≡ sum_fits a b }
{
    a.checked_add(b).is_some()
}

// Whether now is before a + b, also where that sum is no 64-bit number: it is then above or below every time.
pub fn before_sum(now: i64, a: i64, b: i64) -> bool
    ensures { result ≡ lt_z now (a +ℤ b) }
{
    match a.checked_add(b) {
        Some(end) => now < end,
        None => 0 <= a,
    }
}

// Whether a + b is before t, likewise.
pub fn sum_before(a: i64, b: i64, t: i64) -> bool
    ensures { result ≡ lt_z (a +ℤ b) t }
{
    match a.checked_add(b) {
        Some(end) => end < t,
        None => a < 0,
    }
}
