ghost use Rattle.std.specs.Prelude.{◌≡◌, ◌≤◌, ◌+◌, ◌+ℤ◌, ◌++◌, unsigned_abs, length, IfOk, OnOk, IsPermutation};
ghost use Rattle.std.specs.Ordering.{is_eq};
ghost use Rattle.mesh_checks.specs.Edges.{edge, edges, open_edges};
ghost use Rattle.mesh_checks.specs.Runs.{point_cmp, ends_cmp, half_edge_of, half_edges, sign_of, all_runs, IsAscending};

use seq_limits::MOST_FACETS;
use seq_model::{Facet, Point3};
use std::alloc::{AllocError, Global};
use std::cmp::Ordering;

// An edge as one facet goes it: its ends, of which `low` comes first by (x, y, z), and whether the facet goes from low to high.
#[derive(Clone, Copy)]
pub struct HalfEdge {
    pub low: Point3,
    pub high: Point3,
    pub forward: bool,
}

fn compare_points(p: &Point3, q: &Point3) -> Ordering
    ensures { result ≡ point_cmp p.now q.now }
{
    p.x.cmp(&q.x).then(p.y.cmp(&q.y).then(p.z.cmp(&q.z)))
}

// The direction doesn't count: an edge and its reverse have to stand in one run.
fn compare_ends(v: &HalfEdge, w: &HalfEdge) -> Ordering
    ensures { result ≡ ends_cmp v.now w.now }
{
    match compare_points(&v.low, &w.low) {
        Ordering::Equal => compare_points(&v.high, &w.high),
        decided => decided,
    }
}

fn have_same_ends(v: &HalfEdge, w: &HalfEdge) -> bool
    ensures { result ≡ is_eq (ends_cmp v.now w.now) }
{
    compare_ends(v, w).is_eq()
}

// An edge from a point to itself has no half-edge: it is its own reverse.
fn add_half_edge(half_edges: &mut Vec<HalfEdge>, from: Point3, to: Point3) -> Result<(), AllocError>
    ensures { OnOk result (half_edges.new.items ≡ half_edges.old.items ++ half_edge_of (edge from to)) }
{
    match compare_points(&from, &to) {
        Ordering::Less => {
            half_edges.push(HalfEdge {
                low: from,
                high: to,
                forward: true,
            })?;
        }
        Ordering::Equal => {}
        Ordering::Greater => {
            half_edges.push(HalfEdge {
                low: to,
                high: from,
                forward: false,
            })?;
        }
    }
    Ok(())
}

fn half_edges_of(alloc: Global, facets: &[Facet]) -> Result<Vec<HalfEdge>, AllocError>
    requires { length facets.now ≤ MOST_FACETS }
    ensures { IfOk result (λ list. list.items ≡ half_edges (edges facets.now)) }
{
    let mut half_edges = Vec::with_capacity(alloc, 3 * facets.len())?;
    for facet in facets {
        add_half_edge(&mut half_edges, facet.a, facet.b)?;
        add_half_edge(&mut half_edges, facet.b, facet.c)?;
        add_half_edge(&mut half_edges, facet.c, facet.a)?;
    }
    Ok(half_edges)
}

fn ascending(mut half_edges: Vec<HalfEdge>) -> Vec<HalfEdge>
    ensures permutation { IsPermutation half_edges.items result.items }
    ensures ascending { IsAscending result.items }
{
    half_edges.sort_unstable_by(|v: &HalfEdge, w: &HalfEdge| compare_ends(v, w));
    half_edges
}

// The balance of a run after one more half-edge.
fn balance_with(balance: i64, half_edge: &HalfEdge) -> i64
    requires { unsigned_abs balance ≤ 600_000 }
    ensures value { result ≡ balance +ℤ sign_of half_edge.now }
    ensures size { unsigned_abs result ≤ unsigned_abs balance + 1 }
{
    if half_edge.forward {
        balance + 1
    } else {
        balance - 1
    }
}

// In a run of one edge the half-edges forward and those back cancel each other, and what is left is open.
fn count_runs(half_edges: &[HalfEdge]) -> u64
    requires { length half_edges.now ≤ 600_000 }
    ensures { result ≡ all_runs half_edges.now }
{
    if half_edges.is_empty() {
        return 0;
    }
    let mut last = half_edges[0];
    let mut balance = 0i64;
    let mut open = 0u64;
    for half_edge in half_edges {
        if !have_same_ends(&last, half_edge) {
            open += balance.unsigned_abs();
            balance = 0;
        }
        last = *half_edge;
        balance = balance_with(balance, half_edge);
    }
    open + balance.unsigned_abs()
}

// In ascending order the half-edges along one edge stand beside each other.
pub fn count_open(alloc: Global, facets: &[Facet]) -> Result<u64, AllocError>
    requires { length facets.now ≤ MOST_FACETS }
    ensures { IfOk result (λ count. count ≡ open_edges facets.now) }
{
    let half_edges = ascending(half_edges_of(alloc, facets)?);
    Ok(count_runs(half_edges.as_slice()))
}
