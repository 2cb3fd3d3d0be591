// What is said of one node at its path.
ghost use Rattle.std.specs.Prelude.{◌≡◌, ◌<◌, ◌≤◌, ℕ, List, All, length};
ghost use Rattle.bound_sums.specs.Bounding.{IsCounted};
ghost use Rattle.bound_sums.specs.Sparse.{IsShortRoom, IsShortSide};
ghost use Rattle.cert_text.specs.TreeText.{IsSpelt};
ghost use Rattle.seq_model.specs.declared.job.Job.{Job};
ghost use Rattle.seq_model.specs.declared.tree.Choice.{Choice};
ghost use Rattle.seq_model.specs.declared.tree.Node.TheVariants as Nodes;
ghost use Rattle.cert_checker.specs.Judged.{IfFine, IsJudged, IsOwnRule};
ghost use Rattle.cert_checker.specs.Kept.{AreRoomsOf, IsKept, node_at};
ghost use Rattle.cert_checker.specs.Rooms.{rooms_of};
ghost use Rattle.cert_checker.specs.Trails.{AreRowsOf, HasRows, IsFit};

use crate::contacts::{are_ordered, exists};
use crate::cycles::runs_in_circle;
use crate::kept::Kept;
use crate::rules::Rule;
use crate::trail::Trail;
use bound_sums::{Breach, first_breach};
use difference_polygon::SideRow;
use seq_model::{Contact, Job, Mult, Node};

/// What is said of one node at its path: the first rule that it breaks, or between which places its children's choices stand.
#[derive(Clone, Copy, Debug)]
pub enum Judged {
    Broken(Rule),
    Fine(usize, usize),
}

// The first rule of a side split but for the number of its children.
fn side_rule(job: &Job, trail: &Trail, contact: &Contact) -> Option<Rule>
    requires { IsFit trail.now }
    ensures { (e children : ℕ)
        → IsOwnRule job.now e trail.now.path.items (Nodes.Side contact.now children) result }
{
    if !exists(job, contact) {
        return Some(Rule::Contact);
    }
    if !trail.is_before(contact.i, contact.j) {
        return Some(Rule::Unordered);
    }
    None
}

fn bound_rule(rooms: &[i64], rows: &[SideRow], mults: &[Mult], sums: &mut [i128]) -> Option<Rule>
    requires rooms { All IsShortRoom rooms.now }
    requires rows { All (IsShortSide (length rooms.now)) rows.now }
    requires few { length mults.now ≤ 33 }
    requires counted { All IsCounted mults.now }
    requires sums { length sums.old ≡ length rooms.now }
    ensures rule { (job : Job) (e : ℕ) (path : List Choice) → rooms.now ≡ rooms_of job e job.objects
        → AreRowsOf job path rows.now
        → IsOwnRule job e path (Nodes.Bound mults.now) result }
    ensures sums { length sums.new ≡ length rooms.now }
{
    match first_breach(rooms, rows, mults, sums) {
        None => None,
        Some(Breach::Row) => Some(Rule::Row),
        Some(Breach::Sum) => Some(Rule::Sum),
        Some(Breach::Constant) => Some(Rule::Constant),
    }
}

// The first rule that a node breaks, but for its number of children.
fn own_rule(job: &Job, kept: &Kept, node: &Node, trail: &Trail, sums: &mut [i128]) -> Option<Rule>
    requires rooms { AreRoomsOf job.now kept.now }
    requires fit { IsFit trail.now }
    requires rows { HasRows job.now trail.now }
    requires spelt { IsSpelt node.now }
    requires sums { length sums.old ≡ length kept.now.rooms.items }
    ensures rule { IsOwnRule job.now kept.now.extent trail.now.path.items node.now result }
    ensures sums { length sums.new ≡ length kept.now.rooms.items }
{
    match node {
        Node::Order { i, j } => {
            if are_ordered(job, *i, *j) {
                return None;
            }
            Some(Rule::Objects)
        }
        Node::Side { contact, .. } => side_rule(job, trail, contact),
        Node::Bound { mults } => bound_rule(
            kept.rooms.as_slice(),
            trail.rows.as_slice(),
            mults.as_slice(),
            sums,
        ),
        Node::Cycle { objects } => {
            if runs_in_circle(trail, objects.as_slice()) {
                return None;
            }
            Some(Rule::Cycle)
        }
        Node::Pending => Some(Rule::Pending),
    }
}

/// What is said of a node that is judged next, at the path of the trail.
pub fn judge(
    job: &Job,
    kept: &Kept,
    nodes: &[Node],
    number: usize,
    trail: &Trail,
    sums: &mut [i128],
) -> Judged
    requires number { number < length nodes.now }
    requires kept { IsKept job.now nodes.now kept.now }
    requires due { number ≤ length kept.now.ranges.items }
    requires fit { IsFit trail.now }
    requires rows { HasRows job.now trail.now }
    requires spelt { All IsSpelt nodes.now }
    requires sums { length sums.old ≡ length kept.now.rooms.items }
    ensures judged { IsJudged job.now kept.now.extent kept.now.table.choices.items
        trail.now.path.items (node_at nodes.now number) result }
    ensures due { IfFine result (number < length kept.now.ranges.items) }
    ensures sums { length sums.new ≡ length kept.now.rooms.items }
{
    if let Some(rule) = own_rule(job, kept, &nodes[number], trail, sums) {
        return Judged::Broken(rule);
    }
    if number >= kept.ranges.len() {
        return Judged::Broken(Rule::Children);
    }
    let range = kept.ranges[number];
    Judged::Fine(range.from, range.to)
}
