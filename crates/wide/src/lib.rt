// Numbers of two 64-bit words, where the source uses u128. Internal to this repository.
#![tactic(auto)]

ghost use Rattle.std.specs.Prelude.{◌≡◌, ◌+◌, ◌-◌, ◌*◌, ◌/◌, ◌%◌, ◌^◌, ◌<◌, ◌≤◌, ◌==◌};
ghost use Rattle.wide.specs.Value.{digits, modulus, apart, bit_length, Narrows};
ghost use Rattle.wide.specs.Divided.{Divided};
ghost use Rattle.wide.specs.Partway.{Partway};

use refusals::Refusal;
use std::marker::Model;

pub mod claims;

// Two words, the upper one first, so that the derived order is the numbers'. A clause sees the number.
#[derive(Clone, Copy, Debug, Default, PartialEq, Eq, PartialOrd, Ord)]
pub struct Wide {
    hi: u64,
    lo: u64,
}

impl Model for Wide {
    ghost use Rattle.std.specs.Prelude.{ℕ, ◌/◌, ◌%◌, ◌^◌, ◌<◌};
    ghost use Rattle.wide.specs.Value.{digits, high_again, low_again};

    ghost Value = { ℕ };

    ghost view = { λ w. digits 64 w.hi w.lo };

    ghost invariant = { λ w. (w.hi < 2 ^ 64) × (w.lo < 2 ^ 64) };

    ghost inverse = { λ n. record { hi = n / 2 ^ 64; lo = n % 2 ^ 64 } };

    ghost inverse_ok = { λ w in_words. Prim.rw (high_again w.hi w.lo in_words.1, low_again w.hi w.lo in_words.1) };
}

impl From<u64> for Wide {
    ghost from_gives = { λ x w. w ≡ x };

    fn from(x: u64) -> Wide {
        Wide { hi: 0, lo: x }
    }
}

// A number that does not fit one word: the source's MathOverflow.
#[derive(Clone, Copy, Debug, PartialEq, Eq)]
pub struct TooWide;

impl From<TooWide> for Refusal {
    ghost from_gives = { λ _ r. r ≡ MathOverflow };

    fn from(_: TooWide) -> Refusal {
        Refusal::MathOverflow
    }
}

impl TryFrom<Wide> for u64 {
    type Error = TooWide;

    ghost try_from_gives = { Narrows };

    fn try_from(w: Wide) -> Result<u64, TooWide> {
        if w.hi == 0 { Ok(w.lo) } else { Err(TooWide) }
    }
}

#[derive(Clone, Copy, Debug, PartialEq, Eq)]
pub struct Division {
    pub quotient: Wide,
    pub rest: Wide,
}

impl Wide {
    pub fn of_words(hi: u64, lo: u64) -> Wide
        ensures { result ≡ digits 64 hi lo }
    {
        Wide { hi, lo }
    }

    // The upper word and the lower.
    pub fn words(self) -> (u64, u64)
        ensures { digits 64 result.0 result.1 ≡ self }
    {
        (self.hi, self.lo)
    }

    pub fn is_zero(self) -> bool
        ensures { result ≡ (self == 0) }
    {
        self == Wide::from(0)
    }

    // The sum, which starts again at 0 past the largest number of two words.
    pub fn wrapping_add(self, x: u64) -> Wide
        ensures { result ≡ (self + x) % modulus }
    {
        let (lo, carry) = self.lo.overflowing_add(x);
        if carry {
            return Wide {
                hi: self.hi.wrapping_add(1),
                lo,
            };
        }
        Wide { hi: self.hi, lo }
    }

    fn minus(self, b: Wide) -> Wide
        requires { b ≤ self }
        ensures { result ≡ self - b }
    {
        if b.lo <= self.lo {
            return Wide {
                hi: self.hi - b.hi,
                lo: self.lo - b.lo,
            };
        }
        Wide {
            hi: self.hi - b.hi - 1,
            lo: u64::MAX - (b.lo - self.lo - 1),
        }
    }

    pub fn abs_diff(self, b: Wide) -> Wide
        ensures { result ≡ apart self b }
    {
        if self < b {
            b.minus(self)
        } else {
            self.minus(b)
        }
    }

    // u * v, by halves of 32 bits.
    pub fn product(u: u64, v: u64) -> Wide
        ensures { result ≡ u * v }
    {
        let u1 = u / 0x1_0000_0000;
        let u0 = u % 0x1_0000_0000;
        let v1 = v / 0x1_0000_0000;
        let v0 = v % 0x1_0000_0000;
        let w = u0 * v0;
        let t = u1 * v0 + w / 0x1_0000_0000;
        let s = u0 * v1 + t % 0x1_0000_0000;
        let hi = u1 * v1 + t / 0x1_0000_0000 + s / 0x1_0000_0000;
        let lo = s % 0x1_0000_0000 * 0x1_0000_0000 + w % 0x1_0000_0000;
        Wide { hi, lo }
    }

    // Quotient and remainder by every d; by 0 the quotient is 0 and the remainder the number.
    #[tactic(auto, unfolding(crate::specs::Value::modulus))]
    pub fn div_rem(self, d: Wide) -> Division
        ensures division { Divided self d result }

        // What a caller, who sees the number alone, does not know of it.
        ensures in_words { self < modulus }
    {
        // Tells the proof that the words are words.
        let _ = &self.hi;
        if d.is_zero() || self < d {
            return Division {
                quotient: Wide::from(0),
                rest: self,
            };
        }
        // Here d is not above the number, so it fits one word where that does.
        if self.hi == 0 {
            return Division {
                quotient: Wide::from(self.lo / d.lo),
                rest: Wide::from(self.lo % d.lo),
            };
        }
        if 0x8000_0000_0000_0000 <= d.hi {
            return Division {
                quotient: Wide::from(1),
                rest: self.minus(d),
            };
        }
        self.long_division(d)
    }

    // In binary, from the highest digit, for a divisor whose double fits two words.
    fn long_division(self, d: Wide) -> Division
        requires { (0 < d) × (2 * d ≤ modulus) }
        ensures { Divided self d result }
    {
        // Tells the proof that the words are words.
        let _ = &self.hi;
        let mut p = Division {
            quotient: Wide::from(0),
            rest: Wide::from(0),
        };
        for i in (0..self.bits()).rev() {
            p = p.bring_down(d, self.bit(i));
        }
        p
    }

    // 2 r + b, for a binary digit b.
    fn double(self, b: u64) -> Wide
        requires { (b < 2) × (2 * self + b < modulus) }
        ensures { result ≡ 2 * self + b }
    {
        let top = self.lo / 0x8000_0000_0000_0000;
        let low = self.lo % 0x8000_0000_0000_0000;
        Wide {
            hi: self.hi * 2 + top,
            lo: low * 2 + b,
        }
    }

    // Binary digit i.
    fn bit(self, i: u64) -> u64
        requires { i < 128 }
        ensures { result ≡ self / 2 ^ i % 2 }
    {
        if i < 64 {
            (self.lo >> i) % 2
        } else {
            let j = i - 64;
            (self.hi >> j) % 2
        }
    }

    // How many binary digits it has: its leading zeros are passed over.
    fn bits(self) -> u64
        ensures { result ≡ bit_length self }
    {
        if self.hi == 0 {
            64 - u64::from(self.lo.leading_zeros())
        } else {
            128 - u64::from(self.hi.leading_zeros())
        }
    }
}

impl Division {
    // One step of the long division: the digit b is brought down.
    fn bring_down(self, d: Wide, b: u64) -> Division
        requires { Partway self.quotient self.rest d b }
        ensures { (result.rest < d) × (result.quotient * d + result.rest ≡ 2 * (self.quotient * d + self.rest) + b) }
    {
        let rest = self.rest.double(b);
        if rest < d {
            Division {
                quotient: self.quotient.double(0),
                rest,
            }
        } else {
            Division {
                quotient: self.quotient.double(1),
                rest: rest.minus(d),
            }
        }
    }
}

ghost use Rattle.refusals.specs.declared.Refusal.TheVariants.{MathOverflow};
