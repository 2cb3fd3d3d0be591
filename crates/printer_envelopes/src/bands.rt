//! Bands.

ghost use Rattle.std.specs.Prelude.{◌≡◌, ◌≤◌, ◌+◌, ◌↔◌, ◌≤ℤ◌, pos, IsTrue, IfSome, option_map};
ghost use Rattle.std.specs.Option.{ForSome};
ghost use Rattle.integer_laws.specs.Quotients.{IsFloor, IsCeil};
ghost use Rattle.printer_envelopes.specs.Bands.{first_band, last_band, SomeBandsMeet};
ghost use Rattle.seq_model.specs.Contacts.{ZonesMeet};
ghost use Rattle.seq_model.specs.Scenes.{Meets};
ghost use Rattle.seq_model.specs.declared.job.Zone.{Zone};
ghost use Rattle.seq_model.specs.declared.printer.Part.{Part};

use seq_limits::{FARTHEST, LEAST_STEP};
use seq_model::{Part, Zone};
use seq_num::{ceil_div, floor_div};

// The bands of `step` up to a height, the one that it lies in left out.
fn first_band(from: i64, step: i64) -> u32
    requires low { pos 0 ≤ℤ from }
    requires high { from ≤ℤ pos FARTHEST }
    requires step { LEAST_STEP ≤ℤ step }
    ensures value { result ≡ first_band from step }
    ensures rounds { IsFloor from step (pos result) }
    ensures near { result ≤ 1_000_000 }
{
    floor_div(i128::from(from), i128::from(step)) as u32
}

// The bands of `step` up to a height, the one that it lies in counted.
fn last_band(to: i64, step: i64) -> u32
    requires low { pos 0 ≤ℤ to }
    requires high { to ≤ℤ pos FARTHEST }
    requires step { LEAST_STEP ≤ℤ step }
    ensures value { result ≡ last_band to step }
    ensures rounds { IsCeil to step (pos result) }
    ensures near { result ≤ 1_000_000 }
{
    ceil_div(i128::from(to), i128::from(step)) as u32
}

/// The bands that a part from one height to another reaches, counted from the one that is printed: `lo` and `hi` of a part.
/// All three are in µm.
pub fn bands_of(from: i64, to: Option<i64>, step: i64) -> (u32, Option<u32>)
    requires low { pos 0 ≤ℤ from }
    requires high { from ≤ℤ pos FARTHEST }
    requires to { ForSome to (λ t. (from ≤ℤ t) × (t ≤ℤ pos FARTHEST)) }
    requires step { LEAST_STEP ≤ℤ step }
    ensures lo { result.0 ≡ first_band from step }
    ensures hi { result.1 ≡ option_map (λ t. last_band t step) to }
    ensures rounded_down { IsFloor from step (pos result.0) }
    ensures rounded_up { IfSome to (λ t. IfSome result.1 (λ hi. IsCeil t step (pos hi))) }
    ensures order { IfSome result.1 (λ hi. result.0 ≤ hi) }
    ensures low_near { result.0 ≤ 1_000_000 }
    ensures high_near { IfSome result.1 (λ hi. hi ≤ 1_000_000) }
{
    let lo = first_band(from, step);
    match to {
        Some(to) => (lo, Some(last_band(to, step))),
        None => (lo, None),
    }
}

/// Whether, while band b of the later object is printed, the part reaches band c of the earlier one.
pub fn meets(part: &Part, b: u32, c: u32) -> bool
    ensures { IsTrue result ↔ Meets part.now b c }
{
    if u64::from(b) + u64::from(part.lo) > u64::from(c) {
        return false;
    }
    match part.hi {
        Some(hi) => u64::from(c) <= u64::from(b) + u64::from(hi),
        None => true,
    }
}

/// Whether some bands of the two zones meet by the part.
pub fn zones_meet(part: &Part, later: &Zone, earlier: &Zone) -> bool
    ensures { IsTrue result ↔ ZonesMeet earlier.now part.now later.now }
{
    if u64::from(later.first) + u64::from(part.lo) > u64::from(earlier.last) {
        return false;
    }
    match part.hi {
        Some(hi) => u64::from(earlier.first) <= u64::from(later.last) + u64::from(hi),
        None => true,
    }
}

/// Zones that meet are zones of which some bands meet, where their bands and those of the part are in order.
pub fn some_bands_meet()
    ensures if_zones_meet { (earlier later : Zone) (part : Part) → earlier.first ≤ earlier.last
        → later.first ≤ later.last → ForSome part.hi (λ hi. part.lo ≤ hi)
        → ZonesMeet earlier part later → SomeBandsMeet earlier part later }
    ensures only_then { (earlier later : Zone) (part : Part) → SomeBandsMeet earlier part later
        → ZonesMeet earlier part later }
{}
