// What is made once for a whole tree: the sides of its contacts, and the choices of its splits.
ghost use Rattle.std.specs.Prelude.{◌≡◌, ◌≤◌, ◌++◌, ◌∷◌, [], List, All, length, map, IfOk, OnOk, IfSome, IfNone, IsTrue, ◌↔◌};
ghost use Rattle.std.specs.BTreeMap.{values};
ghost use Rattle.outline_laws.specs.Directions.{IsShort};
ghost use Rattle.seq_model.specs.Contacts.{IsContact, points_of};
ghost use Rattle.seq_model.specs.Sides.{AreSides};
ghost use Rattle.seq_model.specs.declared.job.Job.{Job};
ghost use Rattle.seq_model.specs.declared.tree.Choice.{Choice};
ghost use Rattle.seq_model.specs.declared.tree.Choice.TheVariants as Choices;
ghost use Rattle.seq_model.specs.declared.tree.Node.TheVariants as Nodes;
ghost use Rattle.cert_checker.specs.Kept.{AreMet, AreRanges, Grows, HasRange, HasSidesAt, IsKept, IsStuck, IsTable};
ghost use Rattle.cert_checker.specs.Trails.{IsRowFor, IsRowOf};

use crate::contacts::exists;
use crate::rooms::rooms;
use difference_polygon::{SideRow, side_row, sides_of};
use seq_model::{Choice, Contact, Dir, Job, Node};
use seq_num::NoMemory;
use std::alloc::{AllocError, Global};
use std::collections::BTreeMap;

/// Places of a table, from one up to another.
#[derive(Clone, Copy, Debug)]
pub struct Range {
    pub from: usize,
    pub to: usize,
}

/// A contact that was met, and where its sides stand.
#[derive(Clone, Copy, Debug)]
pub struct Met {
    pub contact: Contact,
    pub range: Range,
}

/// Choices, each with its row where it is a side.
#[derive(Debug, Drop)]
pub struct Table {
    pub choices: Vec<Choice>,
    pub rows: Vec<SideRow>,
}

/// An extent, and the room that it leaves for each variable; the choices of the splits; and for each node the range of its children's, up to the first node whose
/// children can't be those of its split.
#[derive(Debug, Drop)]
pub struct Kept {
    pub extent: u32,
    pub rooms: Vec<i64>,
    pub table: Table,
    pub ranges: Vec<Range>,
}

// The row of an order, which has none.
const NO_ROW: SideRow = SideRow {
    c: 0,
    x: 0,
    y: 0,
    i: 0,
    j: 0,
};

fn row_of(job: &Job, contact: &Contact, dir: &Dir) -> SideRow
    requires contact { IsContact job.now contact.now }
    requires dir { IsShort dir.now }
    ensures { IsRowOf job.now contact.now dir.now result }
{
    side_row(job, contact, *dir)
}

fn sides_of_contact(alloc: Global, job: &Job, contact: &Contact) -> Result<Vec<Dir>, NoMemory>
    requires { IsContact job.now contact.now }
    ensures sides { IfOk result (λ dirs. AreSides (points_of job.now contact.now) dirs.items) }
    ensures short { IfOk result (λ dirs. All IsShort dirs.items) }
{
    let a = &job.objects.as_slice()[contact.i as usize].zones.as_slice()[contact.zi as usize];
    let b = &job.objects.as_slice()[contact.j as usize].zones.as_slice()[contact.zj as usize];
    let part = &job.printer.parts.as_slice()[contact.part as usize];
    sides_of(
        alloc,
        a.corners.as_slice(),
        b.corners.as_slice(),
        part.corners.as_slice(),
    )
}

fn is_same(a: &Contact, b: &Contact) -> bool
    ensures { IsTrue result ↔ (a.now ≡ b.now) }
{
    *a == *b
}

// Where the sides of a contact stand, if it was met.
fn known(met: &BTreeMap<Contact, Met>, contact: &Contact) -> Option<Range>
    ensures { (job : Job) (choices : List Choice) → AreMet job choices (values met.now)
        → IfSome result (HasSidesAt job choices contact.now) }
{
    let found = met.get(contact)?;
    if !is_same(&found.contact, contact) {
        return None;
    }
    Some(found.range)
}

fn remember(
    met: &mut BTreeMap<Contact, Met>,
    contact: &Contact,
    range: &Range,
) -> Result<(), AllocError>
    ensures { (job : Job) (choices : List Choice) → AreMet job choices (values met.old)
        → HasSidesAt job choices contact.now range.now
        → OnOk result (AreMet job choices (values met.new)) }
{
    met.insert(
        *contact,
        Met {
            contact: *contact,
            range: *range,
        },
    )?;
    Ok(())
}

fn note(ranges: &mut Vec<Range>, range: Range) -> Result<(), AllocError>
    ensures { OnOk result (ranges.new.items ≡ ranges.old.items ++ range ∷ []) }
{
    ranges.push(range)?;
    Ok(())
}

impl Table {
    fn new(alloc: Global) -> Table
        ensures choices { result.choices.items ≡ [] }
        ensures rows { (job : Job) → IsTable job result }
    {
        Table {
            choices: Vec::new(alloc),
            rows: Vec::new(alloc),
        }
    }

    fn push(&mut self, choice: &Choice, row: &SideRow) -> Result<(), AllocError>
        ensures choices { OnOk result (self.new.choices.items ≡ self.old.choices.items ++ choice.now ∷ []) }
        ensures rows { (job : Job) → IsTable job self.old → IsRowFor job choice.now row.now
            → OnOk result (IsTable job self.new) }
    {
        self.choices.push(*choice)?;
        self.rows.push(*row)?;
        Ok(())
    }

    fn push_order(&mut self, i: u32, j: u32) -> Result<(), AllocError>
        ensures choices { OnOk result (self.new.choices.items
            ≡ self.old.choices.items ++ (Choices.Before i j ∷ Choices.Before j i ∷ [])) }
        ensures rows { (job : Job) → IsTable job self.old → OnOk result (IsTable job self.new) }
    {
        self.push(&Choice::Before { i, j }, &NO_ROW)?;
        self.push(&Choice::Before { i: j, j: i }, &NO_ROW)?;
        Ok(())
    }

    fn push_sides(&mut self, job: &Job, contact: &Contact, dirs: &[Dir]) -> Result<(), AllocError>
        requires contact { IsContact job.now contact.now }
        requires short { All IsShort dirs.now }
        ensures choices { OnOk result (self.new.choices.items
            ≡ self.old.choices.items ++ map (Choices.Side contact.now) dirs.now) }
        ensures rows { IsTable job.now self.old → OnOk result (IsTable job.now self.new) }
    {
        for dir in dirs {
            let row = row_of(job, contact, dir);
            self.push(
                &Choice::Side {
                    contact: *contact,
                    dir: *dir,
                },
                &row,
            )?;
        }
        Ok(())
    }

    // The sides of a contact that wasn't met before; None where it doesn't exist.
    fn new_sides(
        &mut self,
        alloc: Global,
        job: &Job,
        met: &mut BTreeMap<Contact, Met>,
        contact: &Contact,
    ) -> Result<Option<Range>, NoMemory>
        requires met { AreMet job.now self.old.choices.items (values met.old) }
        ensures range { IfOk result (λ r. IfSome r (HasSidesAt job.now self.new.choices.items contact.now)) }
        ensures none { IfOk result (λ r. IfNone r (IsContact job.now contact.now → ⊥)) }
        ensures grown { OnOk result (Grows self.old self.new) }
        ensures rows { IsTable job.now self.old → OnOk result (IsTable job.now self.new) }
        ensures met { OnOk result (AreMet job.now self.new.choices.items (values met.new)) }
    {
        if !exists(job, contact) {
            return Ok(None);
        }
        let dirs = sides_of_contact(alloc, job, contact)?;
        let from = self.choices.len();
        self.push_sides(job, contact, dirs.as_slice())?;
        let range = Range {
            from,
            to: self.choices.len(),
        };
        remember(met, contact, &range)?;
        Ok(Some(range))
    }

    // The sides of a contact, made where it wasn't met before; None where it doesn't exist.
    fn sides(
        &mut self,
        alloc: Global,
        job: &Job,
        met: &mut BTreeMap<Contact, Met>,
        contact: &Contact,
    ) -> Result<Option<Range>, NoMemory>
        requires met { AreMet job.now self.old.choices.items (values met.old) }
        ensures range { IfOk result (λ r. IfSome r (HasSidesAt job.now self.new.choices.items contact.now)) }
        ensures none { IfOk result (λ r. IfNone r (IsContact job.now contact.now → ⊥)) }
        ensures grown { OnOk result (Grows self.old self.new) }
        ensures rows { IsTable job.now self.old → OnOk result (IsTable job.now self.new) }
        ensures met { OnOk result (AreMet job.now self.new.choices.items (values met.new)) }
    {
        if let Some(range) = known(met, contact) {
            return Ok(Some(range));
        }
        self.new_sides(alloc, job, met, contact)
    }

    // The range of a side split, or None where it can't be a split with so many children.
    fn side_range(
        &mut self,
        alloc: Global,
        job: &Job,
        met: &mut BTreeMap<Contact, Met>,
        contact: &Contact,
        children: u32,
    ) -> Result<Option<Range>, NoMemory>
        requires met { AreMet job.now self.old.choices.items (values met.old) }
        ensures range { IfOk result (λ r. IfSome r
            (HasRange job.now self.new.choices.items (Nodes.Side contact.now children))) }
        ensures stuck { IfOk result (λ r. IfNone r (IsStuck job.now (Nodes.Side contact.now children))) }
        ensures grown { OnOk result (Grows self.old self.new) }
        ensures rows { IsTable job.now self.old → OnOk result (IsTable job.now self.new) }
        ensures met { OnOk result (AreMet job.now self.new.choices.items (values met.new)) }
    {
        let Some(range) = self.sides(alloc, job, met, contact)? else {
            return Ok(None);
        };
        if range.to - range.from != children as usize {
            return Ok(None);
        }
        Ok(Some(range))
    }

    fn order_range(&mut self, i: u32, j: u32) -> Result<Range, AllocError>
        ensures range { IfOk result (λ r.
            (job : Job) → HasRange job self.new.choices.items (Nodes.Order i j) r) }
        ensures grown { OnOk result (Grows self.old self.new) }
        ensures rows { (job : Job) → IsTable job self.old → OnOk result (IsTable job self.new) }
    {
        let from = self.choices.len();
        self.push_order(i, j)?;
        Ok(Range {
            from,
            to: self.choices.len(),
        })
    }

    // The range of a node's children, or None where it is a side split with other children.
    fn range(
        &mut self,
        alloc: Global,
        job: &Job,
        met: &mut BTreeMap<Contact, Met>,
        node: &Node,
    ) -> Result<Option<Range>, NoMemory>
        requires met { AreMet job.now self.old.choices.items (values met.old) }
        ensures range { IfOk result (λ r. IfSome r (HasRange job.now self.new.choices.items node.now)) }
        ensures stuck { IfOk result (λ r. IfNone r (IsStuck job.now node.now)) }
        ensures grown { OnOk result (Grows self.old self.new) }
        ensures rows { IsTable job.now self.old → OnOk result (IsTable job.now self.new) }
        ensures met { OnOk result (AreMet job.now self.new.choices.items (values met.new)) }
    {
        match node {
            Node::Order { i, j } => Ok(Some(self.order_range(*i, *j)?)),
            Node::Side { contact, children } => self.side_range(
                alloc, job, met, contact, *children,
            ),
            _ => Ok(Some(Range { from: 0, to: 0 })),
        }
    }

    fn ranges(&mut self, alloc: Global, job: &Job, nodes: &[Node]) -> Result<Vec<Range>, NoMemory>
        ensures ranges { IfOk result (λ ranges.
            AreRanges job.now self.new.choices.items nodes.now ranges.items) }
        ensures rows { IsTable job.now self.old → OnOk result (IsTable job.now self.new) }
    {
        let mut ranges = Vec::with_capacity(alloc, nodes.len())?;
        let mut met = BTreeMap::new(alloc);
        for node in nodes {
            let Some(range) = self.range(alloc, job, &mut met, node)? else {
                return Ok(ranges);
            };
            note(&mut ranges, range)?;
        }
        Ok(ranges)
    }
}

/// What is kept for a tree of these nodes.
pub fn keep(alloc: Global, job: &Job, extent: u32, nodes: &[Node]) -> Result<Kept, NoMemory>
    requires from_one { 1 ≤ extent }
    requires to_grid { extent ≤ job.now.printer.grid }
    ensures kept { IfOk result (IsKept job.now nodes.now) }
    ensures extent { IfOk result (λ kept. kept.extent ≡ extent) }
{
    let rooms = rooms(alloc, job, extent)?;
    let mut table = Table::new(alloc);
    let ranges = table.ranges(alloc, job, nodes)?;
    Ok(Kept {
        extent,
        rooms,
        table,
        ranges,
    })
}
