//! The rows of the system of a path.

ghost use Rattle.std.specs.Prelude.{◌≡◌, ℕ, ◌+◌, ◌*◌, ◌<◌, ◌≤◌, ◌^◌, [], ◌∷◌, ◌++◌, length, replicate, pos, neg_ℤ, ◌-ℤ◌, unsigned_abs, IfOk, OnOk};
ghost use Rattle.node_looks.specs.Rows.{IsSideOf};
ghost use Rattle.seq_model.specs.Bounds.{IsNearSpot};
ghost use Rattle.seq_model.specs.Contacts.{IsContact, points_of};
ghost use Rattle.seq_model.specs.Sides.{Side};
ghost use Rattle.seq_model.specs.Systems.{at_most, bounds_of, pair_row, side_rows, system};
ghost use Rattle.seq_model.specs.Systems as Systems;
ghost use Rattle.seq_model.specs.Trees.{IsPath};

use difference_polygon::{SideRow, side_row};
use owned_lists::Items;
use seq_limits::GREATEST_PLATE;
use seq_model::{Choice, Contact, Dir, Job, Object, Region, Row, region};
use std::alloc::{AllocError, Global};

fn zeros(alloc: Global, n: usize) -> Result<Vec<i64>, AllocError>
    ensures { IfOk result (λ v. v.items ≡ replicate n (pos 0)) }
{
    Ok(vec![in alloc; 0; n]?)
}

// The row that a variable is at most the bound.
fn bound_row(alloc: Global, job: &Job, variable: usize, bound: &i64) -> Result<Row, AllocError>
    requires { variable < 2 * length job.now.objects }
    ensures { IfOk result (λ row. row ≡ at_most job.now variable bound.now) }
{
    let mut a = zeros(alloc, 2 * job.objects.len())?;
    a[variable] = -1;
    Ok(Row {
        c: *bound,
        a: Items::from_vec(a),
    })
}

// What is left of a size by a span from low to high.
fn room(size: &i64, low: &i64, high: &i64) -> i64
    requires size { unsigned_abs size.now ≤ unsigned_abs GREATEST_PLATE }
    requires low { unsigned_abs low.now ≤ 1_001_000 }
    requires high { unsigned_abs high.now ≤ 1_001_000 }
    ensures { result ≡ size.now -ℤ (high.now -ℤ low.now) }
{
    *size - (*high - *low)
}

// The row that a variable is at most what is left.
fn room_row(
    alloc: Global,
    job: &Job,
    variable: usize,
    size: &i64,
    low: &i64,
    high: &i64,
) -> Result<Row, AllocError>
    requires variable { variable < 2 * length job.now.objects }
    requires size { unsigned_abs size.now ≤ unsigned_abs GREATEST_PLATE }
    requires low { unsigned_abs low.now ≤ 1_001_000 }
    requires high { unsigned_abs high.now ≤ 1_001_000 }
    ensures { IfOk result (λ row. row ≡ at_most job.now variable (size.now -ℤ (high.now -ℤ low.now))) }
{
    let bound = room(size, low, high);
    bound_row(alloc, job, variable, &bound)
}

fn push_bounds(
    alloc: Global,
    rows: &mut Vec<Row>,
    job: &Job,
    region: &Region,
    object: &Object,
    variable: usize,
) -> Result<(), AllocError>
    requires variable { variable + 1 < 2 * length job.now.objects }
    requires w { unsigned_abs region.now.w ≤ unsigned_abs GREATEST_PLATE }
    requires h { unsigned_abs region.now.h ≤ unsigned_abs GREATEST_PLATE }
    requires low { IsNearSpot 1_001_000 object.now.low }
    requires high { IsNearSpot 1_001_000 object.now.high }
    ensures { OnOk result (rows.new.items ≡ rows.old.items
        ++ (at_most job.now variable (region.now.w -ℤ (object.now.high.x -ℤ object.now.low.x))
        ∷ at_most job.now (variable + 1) (region.now.h -ℤ (object.now.high.y -ℤ object.now.low.y)) ∷ [])) }
{
    let (low, high) = (&object.low, &object.high);
    rows.push(room_row(alloc, job, variable, &region.w, &low.x, &high.x)?)?;
    rows.push(room_row(alloc, job, variable + 1, &region.h, &low.y, &high.y)?)?;
    Ok(())
}

// The bounds of all objects.
fn bound_rows(alloc: Global, job: &Job, extent: u32) -> Result<Vec<Row>, AllocError>
    requires low { 1 ≤ extent }
    requires high { extent ≤ job.now.printer.grid }
    ensures { IfOk result (λ rows. rows.items ≡ bounds_of job.now extent 0 job.now.objects) }
{
    let region = region(&job.printer, extent);
    let mut rows = Vec::new(alloc);
    let objects = job.objects.as_slice();
    for o in 0..objects.len() {
        push_bounds(alloc, &mut rows, job, &region, &objects[o], 2 * o)?;
    }
    Ok(rows)
}

fn opposite(x: i64) -> i64
    requires { unsigned_abs x < 2 ^ 22 }
    ensures { result ≡ neg_ℤ x }
{
    -x
}

// The row of two objects.
fn row_of_pair(alloc: Global, job: &Job, row: &SideRow) -> Result<Row, AllocError>
    requires x { unsigned_abs row.now.x < 2 ^ 22 }
    requires y { unsigned_abs row.now.y < 2 ^ 22 }
    requires i { row.now.i < length job.now.objects }
    requires j { row.now.j < length job.now.objects }
    ensures { IfOk result (λ r. r ≡ pair_row job.now row.now.c row.now.x row.now.y row.now.i row.now.j) }
{
    let mut a = zeros(alloc, 2 * job.objects.len())?;
    let i = 2 * row.i as usize;
    let j = 2 * row.j as usize;
    a[i] = opposite(row.x);
    a[i + 1] = opposite(row.y);
    a[j] = row.x;
    a[j + 1] = row.y;
    Ok(Row {
        c: row.c,
        a: Items::from_vec(a),
    })
}

/// The row of a side.
pub(crate) fn row_of_side(
    alloc: Global,
    job: &Job,
    contact: &Contact,
    dir: &Dir,
) -> Result<Row, AllocError>
    requires contact { IsContact job.now contact.now }
    requires side { Side (points_of job.now contact.now) dir.now }
    ensures { (e : ℕ) → IfOk result (λ row. row ≡ Systems.side_row job.now e contact.now dir.now) }
{
    let row = side_row(job, contact, *dir);
    row_of_pair(alloc, job, &row)
}

fn push_side(
    alloc: Global,
    rows: &mut Vec<Row>,
    job: &Job,
    choice: &Choice,
) -> Result<(), AllocError>
    requires { IsSideOf job.now choice.now }
    ensures { (e : ℕ) → OnOk result (rows.new.items
        ≡ rows.old.items ++ side_rows job.now e (choice.now ∷ [])) }
{
    match choice {
        Choice::Before { i: _, j: _ } => Ok(()),
        Choice::Side { contact, dir } => {
            rows.push(row_of_side(alloc, job, contact, dir)?)?;
            Ok(())
        }
    }
}

/// The rows of the system of a path: the bounds, and then those of its sides.
pub(crate) fn system_rows(
    alloc: Global,
    job: &Job,
    extent: u32,
    path: &[Choice],
) -> Result<Vec<Row>, AllocError>
    requires low { 1 ≤ extent }
    requires high { extent ≤ job.now.printer.grid }
    requires path { IsPath job.now path.now }
    ensures { IfOk result (λ rows. rows.items ≡ system job.now extent path.now) }
{
    let mut rows = bound_rows(alloc, job, extent)?;
    for choice in path {
        push_side(alloc, &mut rows, job, choice)?;
    }
    Ok(rows)
}
