// Whether two outlines overlap at their places.
ghost use Rattle.std.specs.Prelude.{◌≡◌, ◌<◌, ◌^◌, List, ◌-ℤ◌, ◌≤ℤ◌, ◌↔◌, pos, unsigned_abs, IsTrue};
ghost use Rattle.seq_model.specs.declared.job.Zone.{Zone};
ghost use Rattle.seq_model.specs.declared.plan.Place.{Place};
ghost use Rattle.seq_model.specs.declared.printer.Part.{Part};
ghost use Rattle.seq_model.specs.declared.printer.Spot.{Spot};
ghost use Rattle.seq_model.specs.Parts.{IsSoundPart};
ghost use Rattle.seq_model.specs.Points.{place_point};
ghost use Rattle.seq_model.specs.Scenes.{Overlap};
ghost use Rattle.seq_model.specs.Soundness.{IsSoundZone};
ghost use Rattle.outline_laws.specs.Beyond.{FitsProducts};
ghost use Rattle.outline_laws.specs.Outlines.{AreOutlines};
ghost use Rattle.pair_constraints.specs.FirstContacts.{ArePlaces};
ghost use Rattle.pair_constraints.specs.Laws.Places.{gap};

use difference_polygon::strictly_in;
use integer_laws::difference;
use seq_model::{Part, Place, RatPoint, Spot, Zone};

fn apart(a: i128, b: i128) -> i128
    requires a { unsigned_abs a < 2 ^ 90 }
    requires b { unsigned_abs b < 2 ^ 90 }
    ensures value { result ≡ a -ℤ b }
    ensures size { unsigned_abs result < 2 ^ 91 }
{
    difference(a, b)
}

// Where the later place stands as seen from the earlier one.
fn gap_of(earlier: &Place, later: &Place, scale: i128) -> RatPoint
    requires { ArePlaces earlier.now later.now scale }
    ensures value { result ≡ gap scale earlier.now later.now }
    ensures fits { FitsProducts result }
{
    RatPoint {
        x: apart(later.x, earlier.x),
        y: apart(later.y, earlier.y),
        d: scale,
    }
}

// Whether the outlines overlap at their places, spread by the part.
fn overlap(a: &[Spot], b: &[Spot], f: &[Spot], earlier: &Place, later: &Place, scale: i128) -> bool
    requires outlines { AreOutlines a.now b.now f.now }
    requires places { ArePlaces earlier.now later.now scale }
    ensures { IsTrue result
        ↔ Overlap a.now b.now f.now (place_point scale earlier.now) (place_point scale later.now) }
{
    strictly_in(a, b, f, &gap_of(earlier, later, scale))
}

/// Whether two zones overlap at the places of their objects, spread by the part.
pub fn zones_overlap(
    a: &Zone,
    b: &Zone,
    part: &Part,
    earlier: &Place,
    later: &Place,
    scale: i128,
) -> bool
    requires a { IsSoundZone a.now }
    requires b { IsSoundZone b.now }
    requires part { IsSoundPart part.now }
    requires places { ArePlaces earlier.now later.now scale }
    ensures { IsTrue result ↔ Overlap a.now.corners b.now.corners part.now.corners
        (place_point scale earlier.now) (place_point scale later.now) }
{
    overlap(
        a.corners.as_slice(),
        b.corners.as_slice(),
        part.corners.as_slice(),
        earlier,
        later,
        scale,
    )
}
