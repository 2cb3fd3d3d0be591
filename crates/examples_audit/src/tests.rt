ghost use Rattle.std.specs.Prelude.{◌≡◌, pos, length, All, IfOk, IfSome};
ghost use Rattle.outline_laws.specs.Directions.{IsShort};
ghost use Rattle.plan_audit.specs.Places.{IsRoomy};
ghost use Rattle.seq_model.specs.Contacts.{IsContact};

use difference_polygon::{SideRow, side_row};
use examples_model::jobs::two_cubes;
use owned_lists::Items;
use plan_audit::{Hit, Verdict, audit};
use printer_envelopes::zones_meet;
use seq_model::{Contact, Dir, Job, Place, Plan};
use std::alloc::{AllocError, Global};
use std::test::Fail;

// An object and the numerators of its place.
type Stands = (u32, i64, i64);

// An extent, a scale and places, and the verdict.
type Row = (u32, u32, &'static [Stands], Verdict);

// Two cubes need 24 grains in x or in y by the nozzle, 22 by the tip alone.
static AUDITED: [Row; 12] = [
    (100, 1, &[(0, 1, 1), (1, 25, 1)], Verdict::Good),
    (100, 2, &[(0, 2, 2), (1, 49, 2)], NOZZLE),
    (100, 1, &[(0, 1, 1)], Verdict::Absent(1)),
    (100, 1, &[], Verdict::Absent(0)),
    (100, 1, &[(0, 0, 1), (1, 40, 1)], Verdict::OffPlate(0)),
    (100, 1, &[(0, 1, 1), (0, 25, 1)], Verdict::Stray(1)),
    (
        100,
        1,
        &[(2, 1, 1), (0, 1, 1), (1, 25, 1)],
        Verdict::Stray(0),
    ),
    // an absent object comes before one off the plate, and that before a collision
    (100, 1, &[(1, 0, 0)], Verdict::Absent(0)),
    (100, 1, &[(1, 2, 1), (0, 0, 1)], Verdict::OffPlate(1)),
    // the region of extent 46 goes from 27 to 73
    (46, 1, &[(0, 28, 28), (1, 52, 28)], Verdict::Good),
    (46, 1, &[(0, 28, 28), (1, 53, 28)], Verdict::OffPlate(1)),
    (45, 1, &[(0, 28, 28), (1, 52, 28)], Verdict::OffPlate(1)),
];

const NOZZLE: Verdict = Verdict::Collides(Hit {
    earlier: 0,
    later: 1,
    c: 0,
    b: 0,
    part: 1,
});

// The plan of these places, if an audit takes it.
fn plan(alloc: Global, scale: u32, stands: &[Stands]) -> Result<Plan, AllocError>
    ensures scale { IfOk result (λ plan. plan.scale ≡ pos scale) }
    ensures many { IfOk result (λ plan. length plan.places ≡ length stands.now) }
    ensures roomy { IfOk result (λ plan. All IsRoomy plan.places) }
{
    let mut places = Items::new(alloc);
    for (object, x, y) in stands {
        places.push(Place {
            object: *object,
            x: i128::from(*x),
            y: i128::from(*y),
        })?;
    }
    Ok(Plan {
        scale: i128::from(scale),
        places,
    })
}

// The verdict on these places; none where an audit doesn't take them.
fn verdict_of(alloc: Global, job: &Job, row: &Row) -> Result<Option<Verdict>, AllocError> {
    let (extent, scale, stands, _) = *row;
    if extent < 1 || extent > job.printer.grid || scale < 1 || stands.len() > 16 {
        return Ok(None);
    }
    let plan = plan(alloc, scale, stands)?;
    Ok(Some(audit(job, extent, &plan)))
}

#[test]
fn two_cubes_are_audited(rt: HostRuntime) -> Result<(), Fail> {
    let alloc = rt.alloc();
    let job = two_cubes(alloc)?;
    for row in &AUDITED {
        assert_eq!(rt; verdict_of(alloc, &job, row)?, Some(row.3));
    }
    Ok(())
}

// The contact of the first zones of two objects by a part, if they meet by it.
fn first_contact(job: &Job, i: u32, j: u32, part: u32) -> Option<Contact>
    ensures { IfSome result (λ contact. IsContact job.now contact) }
{
    let objects = job.objects.as_slice();
    let parts = job.printer.parts.as_slice();
    if i == j
        || i as usize >= objects.len()
        || j as usize >= objects.len()
        || part as usize >= parts.len()
    {
        return None;
    }
    let earlier = objects[i as usize].zones.as_slice();
    let later = objects[j as usize].zones.as_slice();
    if earlier.is_empty() || later.is_empty() {
        return None;
    }
    if !zones_meet(&parts[part as usize], &later[0], &earlier[0]) {
        return None;
    }
    Some(Contact {
        i,
        zi: 0,
        part,
        zj: 0,
        j,
    })
}

fn row_of(job: &Job, i: u32, j: u32, part: u32, dir: Dir) -> Option<SideRow>
    requires { IsShort dir }
{
    match first_contact(job, i, j, part) {
        Some(contact) => Some(side_row(job, &contact, dir)),
        None => None,
    }
}

// The earlier and the later of two cubes, a part, a side, and the constant of its row; the gantry passes above both.
static SIDES: [(u32, u32, u32, (i8, i8), Option<i64>); 4] = [
    (0, 1, 1, (1, 0), Some(-24)),
    (1, 0, 1, (0, -1), Some(-24)),
    (0, 1, 0, (-1, 0), Some(-22)),
    (0, 1, 2, (1, 0), None),
];

fn direction(pair: &(i8, i8)) -> Dir
    ensures { IsShort result }
{
    Dir {
        x: i64::from(pair.0),
        y: i64::from(pair.1),
    }
}

#[test]
fn sides_of_two_cubes_have_rows(rt: HostRuntime) -> Result<(), Fail> {
    let job = two_cubes(rt.alloc())?;
    for (i, j, part, pair, constant) in &SIDES {
        let dir = direction(pair);
        let row = constant.map(|c| SideRow {
            c,
            x: dir.x,
            y: dir.y,
            i: *i,
            j: *j,
        });
        assert_eq!(rt; row_of(&job, *i, *j, *part, dir), row);
    }
    Ok(())
}
