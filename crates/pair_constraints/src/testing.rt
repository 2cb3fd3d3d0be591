// Whether a kept contact collides at a point of a system.
ghost use Rattle.std.specs.Prelude.{◌≡◌, ℕ, ◌+◌, ◌<◌, ◌*◌, ◌^◌, ◌+ℤ◌, ◌-ℤ◌, ◌*ℤ◌, ◌≤ℤ◌, pos, neg_ℤ, All, length, unsigned_abs, IsTrue, ◌↔◌, ◌&&◌, int_lt, slice_index_or};
ghost use Rattle.std.specs.List.{list_all};
ghost use Rattle.difference_polygon.specs.declared.rows.SideRow.{SideRow};
ghost use Rattle.outline_laws.specs.Beyond.{FitsProducts};
ghost use Rattle.outline_laws.specs.Directions.{IsShort};
ghost use Rattle.pair_constraints.specs.Keeping.{FitsReach, IsKept};
ghost use Rattle.pair_constraints.specs.Limits.{IsFit};
ghost use Rattle.pair_constraints.specs.Laws.Covering.{is_under};
ghost use Rattle.pair_constraints.specs.Laws.Testing.{FitsGap, ahead, gap_of, in_reach, is_ahead_in, is_behind_in, is_met, num, point_of};
ghost use Rattle.pair_constraints.specs.SolvedPoints.{IsSmall, IsSolvedPoint, values_of};
ghost use Rattle.seq_model.specs.Splits.{ContactCollidesAt};
ghost use Rattle.seq_model.specs.Systems.{pair_row, side_row};

use crate::kept::{Kept, Reach};
use crate::limits::{Limit, all_below};
use crate::points::{SolvedPoint, narrow_step, small_product, wide_step};
use outline_edges::limit_at;
use seq_model::{Job, RatPoint};

// The gap of two objects, where 64 bits hold what is made of it.
#[derive(Clone, Copy, Debug)]
pub(crate) struct Gap {
    pub x: i64,
    pub y: i64,
    pub d: i64,
}

fn is_short(value: i64, most: i64, gap: &Gap) -> bool
    requires most { unsigned_abs most < 2 ^ 46 }
    requires gap { FitsGap gap.now }
    ensures { result ≡ int_lt value (most *ℤ gap.now.d) }
{
    value < small_product(most, gap.d)
}

fn is_short_ahead(reach: &Reach, gap: &Gap) -> bool
    requires reach { FitsReach reach.now }
    requires gap { FitsGap gap.now }
    ensures { result ≡ is_ahead_in (point_of gap.now) reach.now }
{
    is_short(gap.x, reach.east, gap) && is_short(gap.y, reach.north, gap)
}

fn opposite(n: i64) -> i64
    requires { unsigned_abs n < 2 ^ 40 }
    ensures { result ≡ neg_ℤ n }
{
    -n
}

fn is_short_behind(reach: &Reach, gap: &Gap) -> bool
    requires reach { FitsReach reach.now }
    requires gap { FitsGap gap.now }
    ensures { result ≡ is_behind_in (point_of gap.now) reach.now }
{
    is_short(opposite(gap.x), reach.west, gap) && is_short(opposite(gap.y), reach.south, gap)
}

fn is_in_reach(reach: &Reach, gap: &Gap) -> bool
    requires reach { FitsReach reach.now }
    requires gap { FitsGap gap.now }
    ensures { result ≡ in_reach (point_of gap.now) reach.now }
{
    is_short_ahead(reach, gap) && is_short_behind(reach, gap)
}

fn narrow_product(a: i64, b: i64) -> i64
    requires a { unsigned_abs a < 2 ^ 22 }
    requires b { unsigned_abs b < 2 ^ 40 }
    ensures value { result ≡ a *ℤ b }
    ensures size { unsigned_abs result < 2 ^ 62 }
{
    small_product(a, b)
}

fn narrow_sum(a: i64, b: i64) -> i64
    requires a { unsigned_abs a < 2 ^ 62 }
    requires b { unsigned_abs b < 2 ^ 62 }
    ensures value { result ≡ a +ℤ b }
{
    a + b
}

fn is_below(limit: &Limit, gap: &Gap) -> bool
    requires limit { IsFit limit.now }
    requires gap { FitsGap gap.now }
    ensures { result ≡ is_under (point_of gap.now) limit.now }
{
    let value = narrow_sum(
        narrow_product(limit.dir.x, gap.x),
        narrow_product(limit.dir.y, gap.y),
    );
    is_short(value, limit.most, gap)
}

fn is_below_all(limits: &[Limit], gap: &Gap) -> bool
    requires limits { All IsFit limits.now }
    requires gap { FitsGap gap.now }
    ensures { result ≡ list_all (is_under (point_of gap.now)) limits.now }
{
    for limit in limits {
        if !is_below(limit, gap) {
            return false;
        }
    }
    true
}

fn meets_narrow(kept: &Kept, gap: &Gap) -> bool
    requires limits { All IsFit kept.now.limits }
    requires reach { FitsReach kept.now.reach }
    requires gap { FitsGap gap.now }
    ensures { result ≡ is_met (point_of gap.now) kept.now }
{
    is_in_reach(&kept.reach, gap) && is_below_all(kept.limits.as_slice(), gap)
}

fn is_within(value: i128, most: i64, gap: &RatPoint) -> bool
    requires most { unsigned_abs most < 2 ^ 46 }
    requires gap { FitsProducts gap.now }
    ensures { result ≡ int_lt value (most *ℤ gap.now.d) }
{
    value < limit_at(most, gap)
}

fn is_within_ahead(reach: &Reach, gap: &RatPoint) -> bool
    requires reach { FitsReach reach.now }
    requires gap { FitsProducts gap.now }
    ensures { result ≡ is_ahead_in gap.now reach.now }
{
    is_within(gap.x, reach.east, gap) && is_within(gap.y, reach.north, gap)
}

fn wide_opposite(n: i128) -> i128
    requires { unsigned_abs n < 2 ^ 91 }
    ensures { result ≡ neg_ℤ n }
{
    -n
}

fn is_within_behind(reach: &Reach, gap: &RatPoint) -> bool
    requires reach { FitsReach reach.now }
    requires gap { FitsProducts gap.now }
    ensures { result ≡ is_behind_in gap.now reach.now }
{
    is_within(wide_opposite(gap.x), reach.west, gap)
        && is_within(wide_opposite(gap.y), reach.south, gap)
}

fn is_in_wide_reach(reach: &Reach, gap: &RatPoint) -> bool
    requires reach { FitsReach reach.now }
    requires gap { FitsProducts gap.now }
    ensures { result ≡ in_reach gap.now reach.now }
{
    is_within_ahead(reach, gap) && is_within_behind(reach, gap)
}

fn meets_wide(kept: &Kept, gap: &RatPoint) -> bool
    requires limits { All IsFit kept.now.limits }
    requires reach { FitsReach kept.now.reach }
    requires gap { FitsProducts gap.now }
    ensures { result ≡ is_met gap.now kept.now }
{
    is_in_wide_reach(&kept.reach, gap) && all_below(kept.limits.as_slice(), gap)
}

fn num_at(at: &SolvedPoint, variable: usize) -> i64
    requires at { IsSolvedPoint at.now }
    requires variable { variable < length at.now.nums.now }
    ensures value { result ≡ num (values_of at.now) variable }
    ensures small { IsTrue at.now.narrow → IsSmall result }
{
    at.nums[variable]
}

fn narrow_ahead(at: &SolvedPoint, later: usize, earlier: usize, shift: i64) -> i64
    requires at { IsSolvedPoint at.now }
    requires narrow { IsTrue at.now.narrow }
    requires later { later < length at.now.nums.now }
    requires earlier { earlier < length at.now.nums.now }
    requires shift { unsigned_abs shift < 2 ^ 22 }
    ensures value { result ≡ ahead (values_of at.now) later earlier shift }
    ensures size { unsigned_abs result < 2 ^ 40 }
{
    narrow_step(
        num_at(at, later),
        num_at(at, earlier),
        narrow_den(at),
        shift,
    )
}

fn narrow_den(at: &SolvedPoint) -> i64
    requires at { IsSolvedPoint at.now }
    requires narrow { IsTrue at.now.narrow }
    ensures value { result ≡ at.now.den }
    ensures one { pos 1 ≤ℤ result }
    ensures size { unsigned_abs result < 2 ^ 16 }
{
    at.den
}

fn narrow_gap(job: &Job, kept: &Kept, at: &SolvedPoint) -> Gap
    requires kept { IsKept job.now kept.now }
    requires at { IsSolvedPoint at.now }
    requires narrow { IsTrue at.now.narrow }
    requires many { length at.now.nums.now ≡ 2 * length job.now.objects }
    ensures value { point_of result ≡ gap_of kept.now (values_of at.now) }
    ensures fits { FitsGap result }
{
    let i = 2 * kept.contact.i as usize;
    let j = 2 * kept.contact.j as usize;
    Gap {
        x: narrow_ahead(at, j, i, kept.shift.x),
        y: narrow_ahead(at, j + 1, i + 1, kept.shift.y),
        d: narrow_den(at),
    }
}

fn wide_ahead(at: &SolvedPoint, later: usize, earlier: usize, shift: i64) -> i128
    requires at { IsSolvedPoint at.now }
    requires later { later < length at.now.nums.now }
    requires earlier { earlier < length at.now.nums.now }
    requires shift { unsigned_abs shift < 2 ^ 22 }
    ensures value { result ≡ ahead (values_of at.now) later earlier shift }
    ensures size { unsigned_abs result < 2 ^ 91 }
{
    wide_step(num_at(at, later), num_at(at, earlier), at.den, shift)
}

fn wide_den(at: &SolvedPoint) -> i128
    requires at { IsSolvedPoint at.now }
    ensures value { result ≡ at.now.den }
    ensures one { pos 1 ≤ℤ result }
    ensures size { unsigned_abs result < 2 ^ 62 }
{
    i128::from(at.den)
}

fn wide_gap(job: &Job, kept: &Kept, at: &SolvedPoint) -> RatPoint
    requires kept { IsKept job.now kept.now }
    requires at { IsSolvedPoint at.now }
    requires many { length at.now.nums.now ≡ 2 * length job.now.objects }
    ensures value { result ≡ gap_of kept.now (values_of at.now) }
    ensures fits { FitsProducts result }
{
    let i = 2 * kept.contact.i as usize;
    let j = 2 * kept.contact.j as usize;
    RatPoint {
        x: wide_ahead(at, j, i, kept.shift.x),
        y: wide_ahead(at, j + 1, i + 1, kept.shift.y),
        d: wide_den(at),
    }
}

fn meets(job: &Job, kept: &Kept, at: &SolvedPoint) -> bool
    requires kept { IsKept job.now kept.now }
    requires at { IsSolvedPoint at.now }
    requires many { length at.now.nums.now ≡ 2 * length job.now.objects }
    ensures { result ≡ is_met (gap_of kept.now (values_of at.now)) kept.now }
{
    if at.narrow {
        return meets_narrow(kept, &narrow_gap(job, kept, at));
    }
    meets_wide(kept, &wide_gap(job, kept, at))
}

impl Kept {
    /// Whether the contact collides at the point: the reach is tried first, then the sides up to the first that the point is beyond.
    /// Takes no memory, and reads nothing of the job, which the clauses speak of.
    pub fn collides_at(&self, job: &Job, at: &SolvedPoint) -> bool
        requires kept { IsKept job.now self.now }
        requires at { IsSolvedPoint at.now }
        requires many { length at.now.nums.now ≡ 2 * length job.now.objects }
        ensures { (e : ℕ)
            → IsTrue result ↔ ContactCollidesAt job.now e (values_of at.now) self.now.contact }
    {
        meets(job, self, at)
    }
}
