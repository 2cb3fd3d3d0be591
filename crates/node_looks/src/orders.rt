//! The orders of a path: which there are, and a graph that holds them.

ghost use Rattle.std.specs.Prelude.{◌≡◌, ◌+◌, ◌<◌, ◌∷◌, ◌++◌, [], List, length, IfOk, IfErr, OnOk};
ghost use Rattle.node_looks.specs.Held.{IsTable};
ghost use Rattle.node_looks.specs.Sites.{HoldsAll, HoldsUpTo, IsSite};
ghost use Rattle.plan_laws.specs.Looking.{OnPath};
ghost use Rattle.seq_model.specs.Trees.{IsCycle};
ghost use Rattle.seq_model.specs.declared.tree.Choice.{Choice};
ghost use Rattle.seq_model.specs.declared.tree.Choice.TheVariants as Choices;

use crate::site::Site;
use order_graph::{Cycle, OrderGraph};
use seq_model::Choice;

// Notes an order between objects below 16.
fn note_order(table: &mut [bool; 256], i: u32, j: u32)
    requires { length table.old ≡ 256 }
    ensures { (path : List Choice) → IsTable path table.old
        → IsTable (path ++ Choices.Before i j ∷ []) table.new }
{
    if i >= 16 {
        return;
    }
    if j >= 16 {
        return;
    }
    table[(16 * i + j) as usize] = true;
}

fn note(table: &mut [bool; 256], choice: &Choice)
    requires { length table.old ≡ 256 }
    ensures { (path : List Choice) → IsTable path table.old → IsTable (path ++ choice.now ∷ []) table.new }
{
    match choice {
        Choice::Before { i, j } => note_order(table, *i, *j),
        Choice::Side { contact: _, dir: _ } => {}
    }
}

/// Which of two objects below 16 is before the other on a path: i before j at 16 i + j.
pub(crate) fn table_of(path: &[Choice]) -> [bool; 256]
    ensures { IsTable path.now result }
{
    let mut table = [false; 256];
    for choice in path {
        note(&mut table, choice);
    }
    table
}

// Holds that i is before j, if it is on the path.
fn hold(graph: &mut OrderGraph, site: &Site, i: u32, j: u32) -> Result<(), Cycle>
    requires site { IsSite site.now }
    requires i { i < length site.now.job.now.objects }
    requires j { j < length site.now.job.now.objects }
    requires held { HoldsUpTo site.now i j graph.old }
    ensures held { OnOk result (HoldsUpTo site.now i (j + 1) graph.new) }
    ensures cycle { IfErr result (IsCycle (OnPath site.now.path.now)) }
{
    if i == j {
        return Ok(());
    }
    if site.is_before(i, j) {
        return graph.add(i, j);
    }
    Ok(())
}

// Holds what i is before.
fn hold_all(graph: &mut OrderGraph, site: &Site, i: u32) -> Result<(), Cycle>
    requires site { IsSite site.now }
    requires i { i < length site.now.job.now.objects }
    requires held { HoldsUpTo site.now i 0 graph.old }
    ensures held { OnOk result (HoldsUpTo site.now (i + 1) 0 graph.new) }
    ensures cycle { IfErr result (IsCycle (OnPath site.now.path.now)) }
{
    for j in 0..site.object_count() {
        hold(graph, site, i, j)?;
    }
    Ok(())
}

/// A graph of the path's orders, or a cycle of them.
pub(crate) fn graph_of(site: &Site) -> Result<OrderGraph, Cycle>
    requires { IsSite site.now }
    ensures held { IfOk result (HoldsAll site.now) }
    ensures cycle { IfErr result (IsCycle (OnPath site.now.path.now)) }
{
    let mut graph = OrderGraph::new(site.object_count());
    for i in 0..site.object_count() {
        hold_all(&mut graph, site, i)?;
    }
    Ok(graph)
}
