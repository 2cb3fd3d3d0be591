//! One pass over the bytes of a decimal, which gathers its numbers.

ghost use Rattle.std.specs.Prelude.{◌≡◌, ◌≤◌, ◌<◌, ◌+◌, ◌*◌, ◌^◌, ◌↔◌, ℕ, min, length, IfOk, IfErr, IsTrue};
ghost use Rattle.decimal_lengths.specs.Scanning.{kind_of, next_phase, IsComplete, HasDigit, Spelled, nothing, with_kind, KeepsDigits, Keeps, IsCounted, Accepts, StopsBy};

use crate::Decimal;

/// What a byte can be in a decimal.
#[derive(Clone, Copy)]
pub enum Kind {
    Digit(u8),
    /// Whether it is a minus.
    Sign(bool),
    Point,
    /// `e` or `E`.
    Letter,
    Other,
}

/// How far the reading has come.
#[derive(Clone, Copy)]
pub enum Phase {
    Start,
    Signed,
    Whole,
    /// Behind a point that no digit stands before.
    BarePoint,
    Fraction,
    Letter,
    ExponentSigned,
    Exponent,
}

/// The digits beside the point, from the first that isn't 0, 19 of them at most.
#[derive(Clone, Copy)]
pub struct Digits {
    pub kept: u64,
    /// How many came after those kept.
    pub dropped: u32,
}

/// The numbers of a decimal, as far as its length needs them.
#[derive(Clone, Copy)]
pub struct Number {
    pub negative: bool,
    pub digits: Digits,
    /// How many digits stand behind the point, dropped ones too.
    pub fraction: u32,
    pub exponent_negative: bool,
    /// The size of the exponent, or 1,000 where it is greater.
    pub exponent: u32,
}

// Below 10 ^ 18 there is room for one more digit.
const ROOM: u64 = 1_000_000_000_000_000_000;

// 64 digits don't make up for an exponent of this size.
const FAR: u32 = 1_000;

fn kind_of(byte: u8) -> Kind
    ensures { result ≡ kind_of byte }
{
    match byte {
        b'0'..=b'9' => Kind::Digit(byte - b'0'),
        b'+' => Kind::Sign(false),
        b'-' => Kind::Sign(true),
        b'.' => Kind::Point,
        b'e' | b'E' => Kind::Letter,
        _ => Kind::Other,
    }
}

impl Phase {
    /// The phase behind a byte of this kind. `None`: no decimal goes on so.
    fn next(self, kind: Kind) -> Option<Phase>
        ensures { result ≡ next_phase self kind }
    {
        match (self, kind) {
            (Phase::Start, Kind::Sign(_)) => Some(Phase::Signed),
            (Phase::Start | Phase::Signed | Phase::Whole, Kind::Digit(_)) => Some(Phase::Whole),
            (Phase::Start | Phase::Signed, Kind::Point) => Some(Phase::BarePoint),
            (Phase::Whole, Kind::Point) => Some(Phase::Fraction),
            (Phase::BarePoint | Phase::Fraction, Kind::Digit(_)) => Some(Phase::Fraction),
            (Phase::Whole | Phase::Fraction, Kind::Letter) => Some(Phase::Letter),
            (Phase::Letter, Kind::Sign(_)) => Some(Phase::ExponentSigned),
            (Phase::Letter | Phase::ExponentSigned | Phase::Exponent, Kind::Digit(_)) => {
                Some(Phase::Exponent)
            }
            _ => None,
        }
    }

    fn is_complete(self) -> bool
        ensures { IsTrue result ↔ IsComplete self }
    {
        matches!(self, Phase::Whole | Phase::Fraction | Phase::Exponent)
    }
}

impl Digits {
    fn with(self, digit: u8) -> Digits
        requires digit { digit < 10 }
        requires room { self.dropped < 64 }
        ensures keeps { (n : ℕ) → KeepsDigits self n → KeepsDigits result (n * 10 + digit) }
        ensures counted { result.dropped ≤ self.dropped + 1 }
        ensures small { self.kept < 10 ^ 19 → result.kept < 10 ^ 19 }
    {
        if self.kept < ROOM {
            Digits {
                kept: self.kept * 10 + u64::from(digit),
                dropped: self.dropped,
            }
        } else {
            Digits {
                kept: self.kept,
                dropped: self.dropped + 1,
            }
        }
    }
}

fn exponent_with(exponent: u32, digit: u8) -> u32
    requires digit { digit < 10 }
    requires small { exponent ≤ 1000 }
    ensures keeps { (n : ℕ) → exponent ≡ min n 1000 → result ≡ min (n * 10 + digit) 1000 }
    ensures small { result ≤ 1000 }
{
    (exponent * 10 + u32::from(digit)).min(FAR)
}

impl Number {
    fn zero() -> Number
        ensures keeps { Keeps result nothing }
        ensures counted { IsCounted result 0 }
    {
        Number {
            negative: false,
            digits: Digits {
                kept: 0,
                dropped: 0,
            },
            fraction: 0,
            exponent_negative: false,
            exponent: 0,
        }
    }

    // The number with what a byte of this kind adds, when it leads to the phase.
    fn with(self, phase: Phase, kind: Kind) -> Number
        requires digit { HasDigit kind }
        requires room { IsCounted self 63 }
        ensures keeps { (x : Spelled) → Keeps self x → Keeps result (with_kind x phase kind) }
        ensures counted { (n : ℕ) → IsCounted self n → IsCounted result (n + 1) }
    {
        match (phase, kind) {
            (Phase::Signed, Kind::Sign(minus)) => Number {
                negative: minus,
                ..self
            },
            (Phase::Whole, Kind::Digit(digit)) => Number {
                digits: self.digits.with(digit),
                ..self
            },
            (Phase::Fraction, Kind::Digit(digit)) => Number {
                digits: self.digits.with(digit),
                fraction: self.fraction + 1,
                ..self
            },
            (Phase::ExponentSigned, Kind::Sign(minus)) => Number {
                exponent_negative: minus,
                ..self
            },
            (Phase::Exponent, Kind::Digit(digit)) => Number {
                exponent: exponent_with(self.exponent, digit),
                ..self
            },
            _ => self,
        }
    }
}

/// Reads a whole decimal.
pub fn scan(bytes: &[u8]) -> Result<Number, Decimal>
    requires { length bytes.now ≤ 64 }
    ensures accepted { IfOk result (λ number. Accepts bytes.now number) }
    ensures refused { IfErr result (λ cause. StopsBy bytes.now cause) }
{
    let mut phase = Phase::Start;
    let mut number = Number::zero();
    for (place, byte) in bytes.iter().enumerate() {
        let kind = kind_of(*byte);
        let Some(next) = phase.next(kind) else {
            return Err(Decimal::BadByte(place as u32));
        };
        number = number.with(next, kind);
        phase = next;
    }
    if phase.is_complete() {
        Ok(number)
    } else {
        Err(Decimal::NoDigit)
    }
}
