// Which zones of an object, and which parts, lie inside which.
ghost use Rattle.std.specs.Prelude.{◌≡◌, ◌≤◌, ◌<◌, [], All, length, slice_index_or, IfOk, IsTrue};
ghost use Rattle.outline_laws.specs.Corners.{AreCorners, IsNarrow};
ghost use Rattle.outline_laws.specs.Edges.{last_in_list};
ghost use Rattle.pair_constraints.specs.Laws.Nesting.{AreTablesOf, IsNested, IsOutline, IsRowOf, IsTableOf, corners_of_parts, corners_of_zones, is_inside, marks, outline_at};
ghost use Rattle.pair_constraints.specs.Laws.Reaching.{Outreaches, are_behind, is_behind};
ghost use Rattle.search_laws.specs.Covering.{Covers};
ghost use Rattle.seq_model.specs.Contacts.{IsContact, points_of};
ghost use Rattle.seq_model.specs.Parts.{IsSoundPart};
ghost use Rattle.seq_model.specs.Soundness.{IsSoundObject};

use outline_edges::{edge, greatest_value, last_corner, value_along};
use owned_lists::Items;
use seq_model::{Contact, Job, Object, Part, Spot, Zone};
use std::alloc::{AllocError, Global};

fn are_left_of(spots: &[Spot], from: &Spot, to: &Spot) -> bool
    requires near { All IsNarrow spots.now }
    requires some { 1 ≤ length spots.now }
    requires from { IsNarrow from.now }
    requires to { IsNarrow to.now }
    ensures { result ≡ is_behind spots.now from.now to.now }
{
    let dir = edge(from, to, false);
    value_along(&dir, to) >= greatest_value(&dir, spots)
}

fn are_left_of_all(spots: &[Spot], outline: &[Spot]) -> bool
    requires near { All IsNarrow spots.now }
    requires some { 1 ≤ length spots.now }
    requires outline_near { All IsNarrow outline.now }
    requires outline_some { 1 ≤ length outline.now }
    ensures { result ≡ are_behind spots.now (last_in_list outline.now) outline.now }
{
    let mut last = last_corner(outline);
    for corner in outline {
        if !are_left_of(spots, &last, corner) {
            return false;
        }
        last = *corner;
    }
    true
}

// Whether corners lie in an outline with area, edges included. False of an outline without area.
fn lie_inside(spots: &[Spot], outline: &[Spot]) -> bool
    requires near { All IsNarrow spots.now }
    requires some { 1 ≤ length spots.now }
    requires outline_near { All IsNarrow outline.now }
    requires corners { AreCorners outline.now }
    ensures { IsTrue result → Outreaches outline.now spots.now }
{
    if outline.len() < 3 {
        return false;
    }
    are_left_of_all(spots, outline)
}

fn lies_inside(outlines: &[Items<Spot>], z: usize, y: usize) -> bool
    requires outlines { All IsOutline outlines.now }
    requires inner { z < length outlines.now }
    requires outer { y < length outlines.now }
    ensures { IsTrue result → Outreaches (outline_at outlines.now y) (outline_at outlines.now z) }
{
    y == z || lie_inside(outlines[z].as_slice(), outlines[y].as_slice())
}

fn row(alloc: Global, outlines: &[Items<Spot>], z: usize) -> Result<Items<bool>, AllocError>
    requires outlines { All IsOutline outlines.now }
    requires inner { z < length outlines.now }
    ensures { IfOk result (IsRowOf outlines.now z) }
{
    let mut row = Items::new(alloc);
    for y in 0..outlines.len() {
        row.push(lies_inside(outlines, z, y))?;
    }
    Ok(row)
}

fn table(alloc: Global, outlines: &[Items<Spot>]) -> Result<Items<Items<bool>>, AllocError>
    requires { All IsOutline outlines.now }
    ensures { IfOk result (IsTableOf outlines.now) }
{
    let mut table = Items::new(alloc);
    for z in 0..outlines.len() {
        table.push(row(alloc, outlines, z)?)?;
    }
    Ok(table)
}

fn outlines_of_zones(alloc: Global, zones: &[Zone]) -> Result<Vec<Items<Spot>>, AllocError>
    ensures { IfOk result (λ outlines. outlines.items ≡ corners_of_zones zones.now) }
{
    let mut outlines = Vec::with_capacity(alloc, zones.len())?;
    for zone in zones {
        outlines.push(zone.corners.copy(alloc)?)?;
    }
    Ok(outlines)
}

fn outlines_of_parts(alloc: Global, parts: &[Part]) -> Result<Vec<Items<Spot>>, AllocError>
    ensures { IfOk result (λ outlines. outlines.items ≡ corners_of_parts parts.now) }
{
    let mut outlines = Vec::with_capacity(alloc, parts.len())?;
    for part in parts {
        outlines.push(part.corners.copy(alloc)?)?;
    }
    Ok(outlines)
}

fn table_of_zones(alloc: Global, object: &Object) -> Result<Items<Items<bool>>, AllocError>
    requires { IsSoundObject object.now }
    ensures { IfOk result (IsTableOf (corners_of_zones object.now.zones)) }
{
    let outlines = outlines_of_zones(alloc, object.zones.as_slice())?;
    table(alloc, outlines.as_slice())
}

fn table_of_parts(alloc: Global, parts: &[Part]) -> Result<Items<Items<bool>>, AllocError>
    requires { All IsSoundPart parts.now }
    ensures { IfOk result (IsTableOf (corners_of_parts parts.now)) }
{
    let outlines = outlines_of_parts(alloc, parts)?;
    table(alloc, outlines.as_slice())
}

fn tables_of_objects(
    alloc: Global,
    objects: &[Object],
) -> Result<Items<Items<Items<bool>>>, AllocError>
    requires { All IsSoundObject objects.now }
    ensures { IfOk result (AreTablesOf objects.now) }
{
    let mut tables = Items::new(alloc);
    for object in objects {
        tables.push(table_of_zones(alloc, object)?)?;
    }
    Ok(tables)
}

/// For each zone of an object, and for each part, in which others it lies: told by corners and edges, once for a job.
#[derive(Debug, Drop)]
pub(crate) struct Nested {
    pub zones: Items<Items<Items<bool>>>,
    pub parts: Items<Items<bool>>,
}

impl Nested {
    pub fn of(alloc: Global, job: &Job) -> Result<Nested, AllocError>
        ensures { IfOk result (IsNested job.now) }
    {
        Ok(Nested {
            zones: tables_of_objects(alloc, job.objects.as_slice())?,
            parts: table_of_parts(alloc, job.printer.parts.as_slice())?,
        })
    }

    /// Whether the zones and the part of the one contact lie in those of the other, so that its difference does.
    pub fn has_inside(&self, job: &Job, inner: &Contact, outer: &Contact) -> bool
        requires nested { IsNested job.now self.now }
        requires inner { IsContact job.now inner.now }
        requires outer { IsContact job.now outer.now }
        requires earlier { outer.now.i ≡ inner.now.i }
        requires later { outer.now.j ≡ inner.now.j }
        ensures { IsTrue result
            → Covers (points_of job.now outer.now) (points_of job.now inner.now) }
    {
        are_marked(self, inner, outer)
    }
}

fn is_marked(table: &[Items<bool>], z: u32, y: u32) -> bool
    ensures { result ≡ is_inside table.now z y }
{
    if z as usize >= table.len() {
        return false;
    }
    let row = table[z as usize].as_slice();
    if y as usize >= row.len() {
        return false;
    }
    row[y as usize]
}

fn is_marked_at(tables: &[Items<Items<bool>>], i: u32, z: u32, y: u32) -> bool
    requires { i < length tables.now }
    ensures { result ≡ is_inside (slice_index_or tables.now i []) z y }
{
    is_marked(tables[i as usize].as_slice(), z, y)
}

fn are_marked(nested: &Nested, inner: &Contact, outer: &Contact) -> bool
    requires earlier { inner.now.i < length nested.now.zones }
    requires later { inner.now.j < length nested.now.zones }
    ensures { result ≡ marks nested.now inner.now outer.now }
{
    let zones = nested.zones.as_slice();
    if !is_marked(nested.parts.as_slice(), inner.part, outer.part) {
        return false;
    }
    if !is_marked_at(zones, inner.i, inner.zi, outer.zi) {
        return false;
    }
    is_marked_at(zones, inner.j, inner.zj, outer.zj)
}
