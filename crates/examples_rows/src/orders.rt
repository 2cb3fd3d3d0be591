ghost use Rattle.std.specs.Prelude.{◌≡◌, ◌↔◌, ◌≤◌, [], length, IsTrue, IfOk};
ghost use Rattle.object_orders.specs.Orders.{AreAmong};

use order_graph::{Cycle, OrderGraph};

// Objects, held orders, forced ones, and the one order that keeps them or the length of their one cycle.
type Row = (
    u32,
    &'static [(u32, u32)],
    &'static [(u32, u32)],
    Result<&'static [u32], u32>,
);

static COMPLETED: [Row; 13] = [
    (1, &[], &[], Ok(&[0])),
    (2, &[(1, 0)], &[], Ok(&[1, 0])),
    (2, &[], &[(1, 0)], Ok(&[1, 0])),
    (2, &[(0, 1), (0, 1)], &[(0, 1)], Ok(&[0, 1])),
    (2, &[(0, 1)], &[(1, 0)], Err(2)),
    (3, &[(0, 1)], &[(2, 0)], Ok(&[2, 0, 1])),
    (3, &[(2, 1), (1, 0), (2, 0)], &[], Ok(&[2, 1, 0])),
    (3, &[(0, 1), (1, 2)], &[(2, 0)], Err(3)),
    (4, &[(3, 1), (1, 0)], &[(0, 2)], Ok(&[3, 1, 0, 2])),
    (4, &[(0, 1)], &[(2, 3), (3, 2)], Err(2)),
    (4, &[], &[(0, 1), (1, 2), (2, 3), (3, 1)], Err(3)),
    (
        5,
        &[(4, 3), (3, 2)],
        &[(2, 1), (1, 0), (4, 0)],
        Ok(&[4, 3, 2, 1, 0]),
    ),
    (16, &[(15, 7), (7, 11)], &[(11, 15)], Err(3)),
];

fn are_among(n: u32, orders: &[(u32, u32)]) -> bool
    ensures { IsTrue result ↔ AreAmong n orders.now }
{
    orders.iter().all(|&(i, j)| i < n && j < n && i != j)
}

fn graph_of(n: u32, orders: &[(u32, u32)]) -> Result<OrderGraph, Cycle>
    requires some { 1 ≤ n }
    requires few { n ≤ 16 }
    requires room { length orders.now ≤ 256 }
    requires orders { AreAmong n orders.now }
    ensures { IfOk result (λ graph. graph.objects ≡ n) }
{
    let mut graph = OrderGraph::new(n);
    for &(i, j) in orders {
        graph.add(i, j)?;
    }
    Ok(graph)
}

// Whether the completed orders are the one order, or a cycle of this length.
fn completes(
    n: u32,
    held: &[(u32, u32)],
    forced: &[(u32, u32)],
    wanted: Result<&[u32], u32>,
) -> bool {
    if n < 1 || n > 16 || held.len() > 256 || !are_among(n, held) || !are_among(n, forced) {
        return false;
    }
    let Ok(graph) = graph_of(n, held) else {
        return false;
    };
    match graph.complete(forced) {
        Ok(order) => wanted == Ok(&order.objects[..order.len as usize]),
        Err(cycle) => wanted == Err(cycle.len),
    }
}

#[test]
fn graphs_worked_by_hand_are_completed(rt: HostRuntime) {
    for (n, held, forced, wanted) in &COMPLETED {
        assert!(rt; completes(*n, held, forced, *wanted));
    }
}

// The objects of the cycle that the order of 2 before 0 closes, and whether a held order, of which a copy was undone, still refuses
// the other one; none where an order that closes no cycle is refused.
fn refused(graph: &mut OrderGraph) -> Option<([u32; 3], bool)>
    requires { graph.old ≡ record { objects = 3; held = [] } }
{
    graph.add(0, 1).ok()?;
    graph.add(1, 2).ok()?;
    let cycle = graph.add(2, 0).err()?;
    // implied already
    graph.add(0, 2).ok()?;
    graph.undo();
    graph.undo();
    // 0 leads to 1 alone; then a copy
    graph.add(2, 0).ok()?;
    graph.add(2, 0).ok()?;
    graph.undo();
    let still = graph.add(0, 2).is_err();
    if cycle.len != 3 {
        return None;
    }
    Some((
        [cycle.objects[0], cycle.objects[1], cycle.objects[2]],
        still,
    ))
}

#[test]
fn an_order_that_closes_a_cycle_is_refused(rt: HostRuntime) {
    let mut graph = OrderGraph::new(3);
    assert!(rt; refused(&mut graph) == Some(([2, 0, 1], true)));
}
