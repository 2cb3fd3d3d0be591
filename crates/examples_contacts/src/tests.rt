ghost use Rattle.std.specs.Prelude.{◌≡◌, ◌<◌, ◌^◌, unsigned_abs};
ghost use Rattle.pair_constraints.specs.KeptSides.{AreKeptSides};

use crate::objects::{is_contact, job, two_cubes};
use pair_constraints::{
    Contacts, Kept, KeptSides, Limit, SolvedPoint, collides, keep, next_contact,
};
use seq_model::{Contact, Dir, Job, Place};
use std::alloc::Global;
use std::process::Abort;
use std::test::Fail;

// The bar of the tower printed after the cube, by the tip and by the nozzle.
const BAR_AFTER_CUBE_TIP: Contact = Contact {
    i: 0,
    zi: 0,
    part: 0,
    zj: 0,
    j: 1,
};

const BAR_AFTER_CUBE: Contact = Contact {
    i: 0,
    zi: 0,
    part: 1,
    zj: 0,
    j: 1,
};

// The bar and the triangle of the tower printed before the cube, by the nozzle where no part is named.
const BAR_TIP: Contact = Contact {
    i: 1,
    zi: 0,
    part: 0,
    zj: 0,
    j: 0,
};

const BAR: Contact = Contact {
    i: 1,
    zi: 0,
    part: 1,
    zj: 0,
    j: 0,
};

const BAR_GANTRY: Contact = Contact {
    i: 1,
    zi: 0,
    part: 2,
    zj: 0,
    j: 0,
};

const TRIANGLE: Contact = Contact {
    i: 1,
    zi: 1,
    part: 1,
    zj: 0,
    j: 0,
};

const TRIANGLE_GANTRY: Contact = Contact {
    i: 1,
    zi: 1,
    part: 2,
    zj: 0,
    j: 0,
};

// Two cubes, one printed after the other, by the tip and by the nozzle.
const CUBES_TIP: Contact = Contact {
    i: 0,
    zi: 0,
    part: 0,
    zj: 0,
    j: 1,
};

const CUBES: Contact = Contact {
    i: 0,
    zi: 0,
    part: 1,
    zj: 0,
    j: 1,
};

// By how far the later object stands east and north of the earlier one, over a scale; whether the contact collides.
static COLLIDING: [(Contact, (i64, i64), u32, bool); 9] = [
    // the cube and the bar by the tip: from -12 to 17, and from -22 to 22
    (BAR_AFTER_CUBE_TIP, (16, -21), 1, true),
    (BAR_AFTER_CUBE_TIP, (17, 0), 1, false),
    // by the nozzle: from -14 to 19, and from -24 to 24
    (BAR_AFTER_CUBE, (37, 47), 2, true),
    (BAR_AFTER_CUBE, (38, 0), 2, false),
    (BAR_AFTER_CUBE, (0, 24), 1, false),
    // the bar and the cube, the other way round
    (BAR, (14, 0), 1, false),
    // the triangle and the cube by the nozzle: along (1, 2) up to 33
    (TRIANGLE, (18, 7), 1, true),
    (TRIANGLE, (17, 8), 1, false),
    // no contact: the gantry passes above the bar
    (BAR_GANTRY, (0, 0), 1, false),
];

// By the tip, two cubes are apart from 22 grains on, by the nozzle from 24 on.
static CUBES_COLLIDING: [(Contact, (i64, i64), u32, bool); 3] = [
    (CUBES, (24, 0), 1, false),
    (CUBES, (47, 0), 2, true),
    (CUBES_TIP, (47, 0), 2, false),
];

fn place(object: u32, at: (i64, i64)) -> Place
    ensures object { result.object ≡ object }
    ensures x { unsigned_abs result.x < 2 ^ 90 }
    ensures y { unsigned_abs result.y < 2 ^ 90 }
{
    Place {
        object,
        x: i128::from(at.0),
        y: i128::from(at.1),
    }
}

fn is_colliding(job: &Job, contact: &Contact, at: (i64, i64), scale: u32) -> bool {
    if scale < 1 || !is_contact(job, contact) {
        return false;
    }
    let earlier = place(contact.i, (0, 0));
    collides(
        job,
        contact,
        &earlier,
        &place(contact.j, at),
        i128::from(scale),
    )
}

#[test]
fn contacts_collide(rt: HostRuntime) -> Result<(), Fail> {
    let job = job(rt.alloc()).ok_or("no job")?;
    for (contact, at, scale, wanted) in &COLLIDING {
        assert_eq!(rt; is_colliding(&job, contact, *at, *scale), *wanted);
    }
    Ok(())
}

#[test]
fn two_cubes_collide_below_24_by_the_nozzle(rt: HostRuntime) -> Result<(), Fail> {
    let job = two_cubes(rt.alloc()).ok_or("no job")?;
    for (contact, at, scale, wanted) in &CUBES_COLLIDING {
        assert_eq!(rt; is_colliding(&job, contact, *at, *scale), *wanted);
    }
    Ok(())
}

// Whether the tower is the earlier object; by how far the later one stands east and north of it, over a scale; the first contact.
static FIRST: [(bool, (i64, i64), u32, Option<Contact>); 12] = [
    (true, (0, 0), 1, Some(BAR_TIP)),
    (true, (13, 0), 1, Some(BAR)),
    (true, (14, 0), 1, Some(TRIANGLE)),
    (true, (17, 8), 1, Some(TRIANGLE_GANTRY)),
    (true, (235, 0), 2, Some(TRIANGLE_GANTRY)),
    (true, (118, 0), 1, None),
    (true, (0, 23), 1, Some(BAR)),
    (true, (0, 24), 1, None),
    (false, (16, 0), 1, Some(BAR_AFTER_CUBE_TIP)),
    (false, (-27, 0), 2, Some(BAR_AFTER_CUBE)),
    (false, (-14, 0), 1, None),
    (false, (19, 0), 1, None),
];

fn first_of(job: &Job, is_tower_first: bool, at: (i64, i64), scale: u32) -> Option<Contact> {
    if scale < 1 || job.objects.len() != 2 {
        return None;
    }
    let scale = i128::from(scale);
    if is_tower_first {
        return next_contact(job, &place(1, (0, 0)), &place(0, at), scale);
    }
    next_contact(job, &place(0, (0, 0)), &place(1, at), scale)
}

#[test]
fn the_first_contact_is_by_zone_and_part(rt: HostRuntime) -> Result<(), Fail> {
    let job = job(rt.alloc()).ok_or("no job")?;
    for (is_tower_first, at, scale, wanted) in &FIRST {
        assert_eq!(rt; first_of(&job, *is_tower_first, *at, *scale), *wanted);
    }
    Ok(())
}

fn has(kept: &[Kept], contact: &Contact) -> bool {
    for it in kept {
        if it.contact == *contact {
            return true;
        }
    }
    false
}

// The number of maximal contacts of two objects in this order, and whether this is one of them.
static MAXIMAL: [(u32, u32, usize, Contact, bool); 6] = [
    (0, 1, 1, BAR_AFTER_CUBE, true),
    (0, 1, 1, BAR_AFTER_CUBE_TIP, false),
    // the triangle's by the nozzle lies within that by the gantry
    (1, 0, 2, BAR, true),
    (1, 0, 2, TRIANGLE_GANTRY, true),
    (1, 0, 2, TRIANGLE, false),
    (0, 0, 0, BAR_AFTER_CUBE, false),
];

// How many there are, and whether this is one of them.
fn kept_in(contacts: &Contacts, i: u32, j: u32, contact: &Contact) -> (usize, bool) {
    let rows = contacts.rows.as_slice();
    if i as usize >= rows.len() || j as usize >= rows[i as usize].len() {
        return (0, false);
    }
    let kept = contacts.of_pair(i, j);
    (kept.len(), has(kept, contact))
}

#[test]
fn maximal_contacts_of_the_two(rt: HostRuntime) -> Result<(), Fail> {
    let job = job(rt.alloc()).ok_or("no job")?;
    let contacts = Contacts::of(rt.alloc(), &job)?;
    for (i, j, count, contact, is_kept) in &MAXIMAL {
        assert_eq!(rt; kept_in(&contacts, *i, *j, contact), (*count, *is_kept));
    }
    Ok(())
}

// Contacts that are asked for one after the other, with their sides.
static ASKED: [(Contact, &[(i64, i64)]); 4] = [
    (BAR_AFTER_CUBE, &[(1, 0), (0, 1), (-1, 0), (0, -1)]),
    (TRIANGLE_GANTRY, &[(1, 0), (1, 2), (0, 1), (-1, 0), (0, -1)]),
    (BAR_AFTER_CUBE, &[(1, 0), (0, 1), (-1, 0), (0, -1)]),
    (TRIANGLE_GANTRY, &[(1, 0), (1, 2), (0, 1), (-1, 0), (0, -1)]),
];

static CUBES_ASKED: [(Contact, &[(i64, i64)]); 1] = [(CUBES, &[(1, 0), (0, 1), (-1, 0), (0, -1)])];

fn are_directions(dirs: &[Dir], pairs: &[(i64, i64)]) -> bool {
    if dirs.len() != pairs.len() {
        return false;
    }
    for (dir, pair) in dirs.iter().zip(pairs) {
        if dir.x != pair.0 || dir.y != pair.1 {
            return false;
        }
    }
    true
}

fn has_sides(
    alloc: Global,
    job: &Job,
    kept: &mut KeptSides,
    contact: &Contact,
    pairs: &[(i64, i64)],
) -> bool
    requires { AreKeptSides job.now kept.old }
    ensures { AreKeptSides job.now kept.new }
{
    if !is_contact(job, contact) {
        return false;
    }
    match kept.sides(alloc, job, contact) {
        Ok(sides) => are_directions(sides.as_slice(), pairs),
        Err(_) => false,
    }
}

fn all_have_sides(alloc: Global, job: &Job, asked: &[(Contact, &[(i64, i64)])]) -> bool {
    let mut kept = KeptSides::new(alloc);
    for (contact, pairs) in asked {
        if !has_sides(alloc, job, &mut kept, contact, pairs) {
            return false;
        }
    }
    true
}

#[test]
fn each_contact_keeps_its_own_sides(rt: HostRuntime) -> Result<(), Fail> {
    let job = job(rt.alloc()).ok_or("no job")?;
    assert!(rt; all_have_sides(rt.alloc(), &job, &ASKED));
    Ok(())
}

#[test]
fn two_cubes_have_four_sides_by_the_nozzle(rt: HostRuntime) -> Result<(), Fail> {
    let job = two_cubes(rt.alloc()).ok_or("no job")?;
    assert!(rt; all_have_sides(rt.alloc(), &job, &CUBES_ASKED));
    Ok(())
}

// Sides of a contact with the greatest values along them.
static LIMITS: [(Contact, &[(i64, i64, i64)]); 3] = [
    (
        BAR_AFTER_CUBE,
        &[(1, 0, 19), (0, 1, 24), (-1, 0, 14), (0, -1, 24)],
    ),
    (BAR, &[(1, 0, 14), (0, 1, 24), (-1, 0, 19), (0, -1, 24)]),
    (
        TRIANGLE_GANTRY,
        &[
            (1, 0, 118),
            (1, 2, 148),
            (0, 1, 20),
            (-1, 0, 118),
            (0, -1, 29),
        ],
    ),
];

// The variables of a system are the low corners' places: those of the cube lie at (-1, -1), those of the tower at (4, -1).
// Numerators of the later one's over a denominator, the earlier's being 0, and whether the contact collides there.
static TESTED: [(Contact, i64, (i64, i64), bool); 8] = [
    (BAR_AFTER_CUBE, 1, (23, 0), true),
    (BAR_AFTER_CUBE, 1, (24, 0), false),
    (BAR_AFTER_CUBE, 2, (47, -47), true),
    (BAR_AFTER_CUBE, 1 << 40, ((24 << 40) - 1, 0), true),
    (BAR_AFTER_CUBE, 1 << 40, (24 << 40, 0), false),
    (BAR, 1, (8, 23), true),
    (BAR, 1, (9, 23), false),
    (TRIANGLE_GANTRY, 1, (112, 14), true),
];

fn are_limits(limits: &[Limit], rows: &[(i64, i64, i64)]) -> bool {
    if limits.len() != rows.len() {
        return false;
    }
    for (limit, row) in limits.iter().zip(rows) {
        if limit.dir.x != row.0 || limit.dir.y != row.1 || limit.most != row.2 {
            return false;
        }
    }
    true
}

fn has_limits(alloc: Global, job: &Job, contact: &Contact, rows: &[(i64, i64, i64)]) -> bool {
    if !is_contact(job, contact) {
        return false;
    }
    match keep(alloc, job, contact) {
        Ok(kept) => are_limits(kept.limits.as_slice(), rows),
        Err(_) => false,
    }
}

// The numerators of the two objects' variables, where the later object has these.
fn numerators(contact: &Contact, at: (i64, i64)) -> [i64; 4] {
    if contact.j == 1 {
        return [0, 0, at.0, at.1];
    }
    [at.0, at.1, 0, 0]
}

fn is_hit(alloc: Global, job: &Job, contact: &Contact, den: i64, at: (i64, i64)) -> bool {
    if den < 1 || den >= 1 << 62 || job.objects.len() != 2 || !is_contact(job, contact) {
        return false;
    }
    let nums = numerators(contact, at);
    match keep(alloc, job, contact) {
        Ok(kept) => kept.collides_at(job, &SolvedPoint::new(den, &nums)),
        Err(_) => false,
    }
}

#[test]
fn kept_contacts_are_tested_at_points(rt: HostRuntime) -> Result<(), Fail> {
    let job = job(rt.alloc()).ok_or("no job")?;
    for (contact, rows) in &LIMITS {
        assert!(rt; has_limits(rt.alloc(), &job, contact, rows));
    }
    for (contact, den, at, wanted) in &TESTED {
        assert_eq!(rt; is_hit(rt.alloc(), &job, contact, *den, *at), *wanted);
    }
    Ok(())
}
