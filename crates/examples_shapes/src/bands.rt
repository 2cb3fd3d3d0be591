use owned_lists::{Items, Text};
use printer_envelopes::{bands_of, bar_corners, meets, zones_meet};
use seq_model::{Part, Spot, Zone};
use std::alloc::{AllocError, Global};
use std::test::Fail;

// from, to and step in µm, then lo and hi
static BANDS: [(i64, Option<i64>, i64, u32, Option<u32>); 9] = [
    (5_000, Some(11_000), 10_000, 0, Some(2)),
    (0, None, 10_000, 0, None),
    (20_000, None, 10_000, 2, None),
    (20_000, Some(20_000), 10_000, 2, Some(2)),
    (19_999, Some(20_001), 10_000, 1, Some(3)),
    (0, Some(0), 10_000, 0, Some(0)),
    (0, Some(1), 10_000, 0, Some(1)),
    (10_000_000, Some(10_000_000), 10, 1_000_000, Some(1_000_000)),
    (9_999_999, Some(10_000_000), i64::MAX, 0, Some(1)),
];

// lo and hi of a part, a band of the later and one of the earlier object, and whether they meet
static MEETING: [(u32, Option<u32>, u32, u32, bool); 8] = [
    (0, Some(0), 3, 3, true),
    (0, Some(0), 3, 4, false),
    (0, Some(0), 3, 2, false),
    (2, None, 1, 2, false),
    (2, None, 1, 3, true),
    (2, Some(4), 1, 5, true),
    (2, Some(4), 1, 6, false),
    (u32::MAX, None, 199, 0, false),
];

// lo and hi of a part, first and last band of the later and of the earlier zone, and whether they meet
static ZONES: [(u32, Option<u32>, (u32, u32), (u32, u32), bool); 6] = [
    (0, Some(0), (0, 1), (0, 1), true),
    (0, Some(0), (2, 3), (0, 1), false),
    (2, None, (0, 1), (0, 1), false),
    (2, None, (0, 1), (0, 2), true),
    (0, Some(1), (0, 1), (3, 4), false),
    (0, Some(2), (0, 1), (3, 4), true),
];

fn part(alloc: Global, lo: u32, hi: Option<u32>) -> Result<Part, AllocError> {
    Ok(Part {
        name: Text::from_str(alloc, "part")?,
        corners: Items::new(alloc),
        lo,
        hi,
    })
}

fn zone(alloc: Global, bands: (u32, u32)) -> Zone {
    Zone {
        corners: Items::new(alloc),
        first: bands.0,
        last: bands.1,
    }
}

fn bands_meet(alloc: Global, lo: u32, hi: Option<u32>, b: u32, c: u32) -> Result<bool, AllocError> {
    let part = part(alloc, lo, hi)?;
    Ok(meets(&part, b, c))
}

fn zones_meet_by(
    alloc: Global,
    lo: u32,
    hi: Option<u32>,
    later: (u32, u32),
    earlier: (u32, u32),
) -> Result<bool, AllocError> {
    let part = part(alloc, lo, hi)?;
    Ok(zones_meet(&part, &zone(alloc, later), &zone(alloc, earlier)))
}

#[test]
fn bars_reach_past_the_plate(rt: HostRuntime) {
    let along_x = bar_corners(true, -10, 10, 100, 50);
    assert!(rt; along_x[0] == Spot { x: -101, y: -10 } && along_x[2] == Spot { x: 101, y: 10 });
    let along_y = bar_corners(false, 3, 4, 100, 50);
    assert!(rt; along_y[1] == Spot { x: 4, y: -51 } && along_y[3] == Spot { x: 3, y: 51 });
}

#[test]
fn bands_and_zones_meet(rt: HostRuntime) -> Result<(), Fail> {
    for (from, to, step, lo, hi) in &BANDS {
        assert!(rt; bands_of(*from, *to, *step) == (*lo, *hi));
    }
    for (lo, hi, b, c, want) in &MEETING {
        assert!(rt; bands_meet(rt.alloc(), *lo, *hi, *b, *c)? == *want);
    }
    for (lo, hi, later, earlier, want) in &ZONES {
        assert!(rt; zones_meet_by(rt.alloc(), *lo, *hi, *later, *earlier)? == *want);
    }
    Ok(())
}
