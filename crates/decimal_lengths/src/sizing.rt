//! The size of a length, from the numbers of its decimal.

ghost use Rattle.std.specs.Prelude.{◌≡◌, ◌<◌, ◌*◌, ◌^◌};
ghost use Rattle.seq_num.specs.Nearest.{half_up};
ghost use Rattle.decimal_lengths.specs.Scanning.{Spelled, Keeps, IsCounted};
ghost use Rattle.decimal_lengths.specs.Sizes.{IsShift, size_of, IsUpTo};

use crate::scanning::Number;
use seq_limits::FARTHEST;

/// The size of the length in µm, rounded, unless it is above the greatest.
pub fn size(number: &Number) -> Option<u64>
    requires { IsCounted number.now 64 }
    ensures { (x : Spelled) → Keeps number.now x → IsUpTo (size_of x) result }
{
    let kept = number.digits.kept;
    let (up, down) = shift(number);
    if up >= down {
        raised(kept, up - down)
    } else {
        lowered(kept, down - up)
    }
}

// By how many places the kept digits go up and down to be micrometres.
fn shift(number: &Number) -> (u32, u32)
    requires { IsCounted number.now 64 }
    ensures { IsShift number.now result.0 result.1 }
{
    let up = number.digits.dropped + 3;
    if number.exponent_negative {
        (up, number.fraction + number.exponent)
    } else {
        (up + number.exponent, number.fraction)
    }
}

// kept * 10 ^ by
fn raised(kept: u64, by: u32) -> Option<u64>
    ensures { IsUpTo (kept * 10 ^ by) result }
{
    if kept == 0 {
        return Some(0);
    }
    // 10 ^ 8 is above the greatest.
    if kept > u64::from(FARTHEST) || by > 7 {
        return None;
    }
    up_to_greatest(kept * 10u64.pow(by))
}

// kept / 10 ^ by, rounded
fn lowered(kept: u64, by: u32) -> Option<u64>
    requires some { 0 < by }
    requires fits { kept < 10 ^ 19 }
    ensures { IsUpTo (half_up kept (10 ^ by)) result }
{
    // No 19 digits come near to half of 10 ^ 20.
    if by > 19 {
        return Some(0);
    }
    let unit = 10u64.pow(by);
    up_to_greatest((kept + unit / 2) / unit)
}

fn up_to_greatest(size: u64) -> Option<u64>
    ensures { IsUpTo size result }
{
    (size <= u64::from(FARTHEST)).then_some(size)
}
