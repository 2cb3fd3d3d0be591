//! Bars.

ghost use Rattle.std.specs.Prelude.{◌≡◌, ◌+ℤ◌, ◌≤ℤ◌, neg_ℤ, pos};
ghost use Rattle.printer_envelopes.specs.Bars.{bar, rectangle};

use seq_limits::GREATEST_PLATE;
use seq_model::Spot;

// The corners of a rectangle, counterclockwise from the least.
fn rectangle(west: i64, south: i64, east: i64, north: i64) -> [Spot; 4]
    ensures { result ≡ rectangle west south east north }
{
    [
        Spot { x: west, y: south },
        Spot { x: east, y: south },
        Spot { x: east, y: north },
        Spot { x: west, y: north },
    ]
}

// One grain beyond the far side of a plate, seen from the other side.
fn beyond(size: i64) -> i64
    requires low { pos 1 ≤ℤ size }
    requires high { size ≤ℤ GREATEST_PLATE }
    ensures { result ≡ neg_ℤ (size +ℤ pos 1) }
{
    -(size + 1)
}

/// The corners of a bar, in grains from the tip, counterclockwise from the least. A bar along x lies between `low` and
/// `high` in y and is as long as it takes to reach over a plate of `width` by `depth` grains, wherever the tip is.
pub fn bar_corners(along_x: bool, low: i64, high: i64, width: i64, depth: i64) -> [Spot; 4]
    requires order { low ≤ℤ high }
    requires width_low { pos 1 ≤ℤ width }
    requires width_high { width ≤ℤ GREATEST_PLATE }
    requires depth_low { pos 1 ≤ℤ depth }
    requires depth_high { depth ≤ℤ GREATEST_PLATE }
    ensures { result ≡ bar along_x low high width depth }
{
    if along_x {
        return rectangle(beyond(width), low, width + 1, high);
    }
    rectangle(low, beyond(depth), high, depth + 1)
}
