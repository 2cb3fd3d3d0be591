// The room that an extent leaves for each variable.
ghost use Rattle.std.specs.Prelude.{◌≡◌, ◌≤◌, ◌<◌, ◌^◌, ◌-ℤ◌, All, IfOk, unsigned_abs};
ghost use Rattle.seq_model.specs.Bounds.{IsNearSpot};
ghost use Rattle.bound_sums.specs.Sparse.{IsShortRoom};
ghost use Rattle.cert_checker.specs.Rooms.{rooms_of};

use seq_model::{Job, Object, Region, region};
use std::alloc::{AllocError, Global};

fn room(size: i64, low: i64, high: i64) -> i64
    requires size { unsigned_abs size < 2 ^ 46 }
    requires low { unsigned_abs low < 2 ^ 44 }
    requires high { unsigned_abs high < 2 ^ 44 }
    ensures value { result ≡ size -ℤ (high -ℤ low) }
    ensures size { IsShortRoom result }
{
    size - (high - low)
}

fn room_along_x(region: &Region, object: &Object) -> i64
    requires width { unsigned_abs region.now.w < 2 ^ 46 }
    requires low { IsNearSpot 1_001_000 object.now.low }
    requires high { IsNearSpot 1_001_000 object.now.high }
    ensures value { result ≡ region.now.w -ℤ (object.now.high.x -ℤ object.now.low.x) }
    ensures size { IsShortRoom result }
{
    room(region.w, object.low.x, object.high.x)
}

fn room_along_y(region: &Region, object: &Object) -> i64
    requires height { unsigned_abs region.now.h < 2 ^ 46 }
    requires low { IsNearSpot 1_001_000 object.now.low }
    requires high { IsNearSpot 1_001_000 object.now.high }
    ensures value { result ≡ region.now.h -ℤ (object.now.high.y -ℤ object.now.low.y) }
    ensures size { IsShortRoom result }
{
    room(region.h, object.low.y, object.high.y)
}

/// The room that is left for each variable.
pub fn rooms(alloc: Global, job: &Job, extent: u32) -> Result<Vec<i64>, AllocError>
    requires from_one { 1 ≤ extent }
    requires to_grid { extent ≤ job.now.printer.grid }
    ensures value { IfOk result (λ rooms. rooms.items ≡ rooms_of job.now extent job.now.objects) }
    ensures short { IfOk result (λ rooms. All IsShortRoom rooms.items) }
{
    let region = region(&job.printer, extent);
    let mut rooms = Vec::new(alloc);
    for object in job.objects.as_slice() {
        rooms.push(room_along_x(&region, object))?;
        rooms.push(room_along_y(&region, object))?;
    }
    Ok(rooms)
}
