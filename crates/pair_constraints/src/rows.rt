// The rows of a kept contact's sides.
ghost use Rattle.std.specs.Prelude.{◌≡◌, ℕ, ◌<◌, ◌*◌, ◌^◌, ◌+ℤ◌, ◌-ℤ◌, ◌*ℤ◌, length, unsigned_abs, slice_index_or};
ghost use Rattle.outline_laws.specs.Directions.{IsShort};
ghost use Rattle.pair_constraints.specs.Keeping.{IsKept, IsSmallSpot};
ghost use Rattle.pair_constraints.specs.Limits.{IsFit};
ghost use Rattle.pair_constraints.specs.declared.limits.Limit.{Limit};
ghost use Rattle.seq_model.specs.Sides.{along};
ghost use Rattle.seq_model.specs.Systems as Systems;

use crate::kept::Kept;
use crate::limits::Limit;
use crate::points::small_product;
use difference_polygon::SideRow;
use seq_model::{Dir, Job, Spot};

fn near_product(a: i64, b: i64) -> i64
    requires a { unsigned_abs a < 2 ^ 22 }
    requires b { unsigned_abs b < 2 ^ 22 }
    ensures value { result ≡ a *ℤ b }
    ensures size { unsigned_abs result < 2 ^ 44 }
{
    small_product(a, b)
}

fn near_sum(a: i64, b: i64) -> i64
    requires a { unsigned_abs a < 2 ^ 44 }
    requires b { unsigned_abs b < 2 ^ 44 }
    ensures value { result ≡ a +ℤ b }
    ensures size { unsigned_abs result < 2 ^ 45 }
{
    a + b
}

fn near_value(dir: &Dir, at: &Spot) -> i64
    requires dir { IsShort dir.now }
    requires at { IsSmallSpot at.now }
    ensures value { result ≡ along dir.now at.now }
    ensures size { unsigned_abs result < 2 ^ 45 }
{
    near_sum(near_product(dir.x, at.x), near_product(dir.y, at.y))
}

fn short_of(value: i64, most: i64) -> i64
    requires value { unsigned_abs value < 2 ^ 45 }
    requires most { unsigned_abs most < 2 ^ 46 }
    ensures value { result ≡ value -ℤ most }
    ensures size { unsigned_abs result < 2 ^ 47 }
{
    value - most
}

fn constant_of(shift: &Spot, limit: &Limit) -> i64
    requires shift { IsSmallSpot shift.now }
    requires limit { IsFit limit.now }
    ensures value { result ≡ along limit.now.dir shift.now -ℤ limit.now.most }
    ensures size { unsigned_abs result < 2 ^ 47 }
{
    short_of(near_value(&limit.dir, shift), limit.most)
}

fn row_of_limit(kept: &Kept, limit: &Limit) -> SideRow
    requires shift { IsSmallSpot kept.now.shift }
    requires limit { IsFit limit.now }
    ensures c { result.c ≡ along limit.now.dir kept.now.shift -ℤ limit.now.most }
    ensures x { result.x ≡ limit.now.dir.x }
    ensures y { result.y ≡ limit.now.dir.y }
    ensures i { result.i ≡ kept.now.contact.i }
    ensures j { result.j ≡ kept.now.contact.j }
    ensures size { unsigned_abs result.c < 2 ^ 47 }
{
    SideRow {
        c: constant_of(&kept.shift, limit),
        x: limit.dir.x,
        y: limit.dir.y,
        i: kept.contact.i,
        j: kept.contact.j,
    }
}

impl Kept {
    /// The row of the system for one of its sides: that the later object stands beyond it. Takes no memory, and reads nothing of the
    /// job, which the clauses speak of.
    pub fn row(&self, job: &Job, side: usize) -> SideRow
        requires kept { IsKept job.now self.now }
        requires side { side < length self.now.limits }
        ensures row { (e : ℕ) (d : Limit)
            → Systems.pair_row job.now result.c result.x result.y result.i result.j
            ≡ Systems.side_row job.now e self.now.contact
            (slice_index_or self.now.limits side d).dir }
        ensures i { result.i ≡ self.now.contact.i }
        ensures j { result.j ≡ self.now.contact.j }
        ensures size { unsigned_abs result.c < 2 ^ 47 }
    {
        row_of_limit(self, &self.limits.as_slice()[side])
    }
}
