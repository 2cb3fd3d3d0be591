//! What a search looks at first. Nothing is promised of it but that it names what is there.

ghost use Rattle.std.specs.Prelude.{◌<◌, ◌^◌, length, IfOk};
ghost use Rattle.std.specs.List.Sorted.{IsPermutation};
ghost use Rattle.node_looks.specs.Looks.{IsVisit};

use crate::site::Site;
use crate::splits::in_order;
use owned_lists::Items;
use pair_constraints::{Kept, Limit, SolvedPoint};
use search_room::{Room, push, row_constant};
use seq_model::{Choice, Contact, Job, Row, Spot};
use std::alloc::{AllocError, Global};

/// The room that the bounds leave, the first of these rows.
pub(crate) fn bounds_room(job: &Job, rows: &[Row]) -> Room {
    let mut room = Room::new();
    for v in 0..2 * job.objects.len() {
        if v < rows.len() {
            room.bound(v, rows[v].c);
        }
    }
    room
}

/// The room that the rows of a path leave.
pub(crate) fn room_of(job: &Job, path: &[Choice], rows: &[Row]) -> Room {
    let mut room = bounds_room(job, rows);
    let mut r = 2 * job.objects.len();
    for choice in path {
        if let Choice::Side { contact, dir } = choice {
            if r < rows.len() {
                room.narrow(contact.i, contact.j, dir, rows[r].c);
                r += 1;
            }
        }
    }
    room
}

fn is_live(room: &Room, kept: &Kept, limit: &Limit) -> bool {
    let constant = row_constant(&limit.dir, limit.most, &kept.shift);
    room.is_live(kept.contact.i, kept.contact.j, &limit.dir, constant)
}

/// How many sides of a contact can still be kept beyond.
pub(crate) fn live_sides(room: &Room, kept: &Kept) -> u64 {
    let mut live = 0u64;
    for limit in kept.limits.as_slice() {
        if is_live(room, kept, limit) {
            live = live.saturating_add(1);
        }
    }
    live
}

fn number(at: &SolvedPoint, variable: usize) -> i64 {
    if variable < at.nums.len() {
        return at.nums[variable];
    }
    0
}

// Where the later object's variables stand as seen from the earlier one's, times the denominator.
fn gap(at: &SolvedPoint, contact: &Contact) -> Spot {
    if contact.i >= 16 || contact.j >= 16 {
        return Spot { x: 0, y: 0 };
    }
    let (i, j) = (2 * contact.i as usize, 2 * contact.j as usize);
    Spot {
        x: number(at, j).saturating_sub(number(at, i)),
        y: number(at, j + 1).saturating_sub(number(at, i + 1)),
    }
}

// How far the point has to be pushed beyond a side; a dead one comes last.
fn push_beyond(room: &Room, kept: &Kept, limit: &Limit, at: &SolvedPoint) -> i128 {
    if !is_live(room, kept, limit) {
        return i128::MAX;
    }
    let constant = row_constant(&limit.dir, limit.most, &kept.shift);
    push(&limit.dir, constant, &gap(at, &kept.contact), at.den)
}

fn pushes(
    alloc: Global,
    room: &Room,
    kept: &Kept,
    at: &SolvedPoint,
) -> Result<Vec<i128>, AllocError> {
    let limits = kept.limits.as_slice();
    let mut keys = Vec::with_capacity(alloc, limits.len())?;
    for limit in limits {
        keys.push(push_beyond(room, kept, limit, at))?;
    }
    Ok(keys)
}

fn key_at(keys: &[i128], k: u32) -> i128 {
    if (k as usize) < keys.len() {
        return keys[k as usize];
    }
    0
}

fn sort_by_keys(visit: &mut Vec<u32>, keys: &[i128]) -> Result<(), AllocError>
    ensures { IsPermutation visit.old.items visit.new.items }
{
    visit.sort_by_key(|k| key_at(keys, *k))?;
    Ok(())
}

fn sorted(alloc: Global, n: u32, keys: &[i128]) -> Result<Items<u32>, AllocError>
    ensures { IfOk result (IsVisit n) }
{
    let mut visit = in_order(alloc, n)?.into_vec();
    sort_by_keys(&mut visit, keys)?;
    Ok(Items::from_vec(visit))
}

/// In which order the children of a contact's split are to be looked at: by the least push.
pub(crate) fn visit_of(alloc: Global, site: &Site, kept: &Kept) -> Result<Items<u32>, AllocError>
    requires { length kept.now.limits < 2 ^ 32 }
    ensures { IfOk result (IsVisit (length kept.now.limits)) }
{
    let keys = pushes(alloc, site.room, kept, &site.at)?;
    sorted(alloc, kept.limits.len() as u32, &keys)
}
