//! Adds orders to the graphs of 16 objects that cost most, and completes them, 1,000,000 times each. It prints what
//! came of it, and on the error stream the nanoseconds of a call; `bench/run orders` runs it. Nothing is
//! promised here but that the calls may be made.
#![tactic(auto)]

ghost use Rattle.std.specs.Prelude.{◌≡◌, ◌≢◌, ◌↔◌, ◌<◌, length, IsTrue, IfSome};
ghost use Rattle.object_orders.specs.Orders.{AreAmong};

use order_graph::OrderGraph;
use std::io;
use std::process::ExitCode;
use std::time::Instant;

fn are_among(orders: &[(u32, u32)]) -> bool
    ensures { IsTrue result ↔ AreAmong 16 orders.now }
{
    orders.iter().all(|&(i, j)| i < 16 && j < 16 && i != j)
}

/// A graph of 16 objects that holds the orders, if they have no cycle.
fn graph_of(orders: &[(u32, u32)]) -> Option<OrderGraph>
    requires room { length orders.now < 256 }
    requires orders { AreAmong 16 orders.now }
    ensures { IfSome result (λ graph. (graph.objects ≡ 16) × (length graph.held < 256)) }
{
    let mut graph = OrderGraph::new(16);
    for &(i, j) in orders {
        if graph.add(i, j).is_err() {
            return None;
        }
    }
    Some(graph)
}

/// The objects of the cycles that the order of `i` before `j` closes, one call after the other; an order that is held
/// is undone.
fn added(graph: &mut OrderGraph, i: u32, j: u32) -> u64
    requires objects { graph.old.objects ≡ 16 }
    requires room { length graph.old.held < 256 }
    requires first { i < 16 }
    requires second { j < 16 }
    requires apart { i ≢ j }
    ensures { graph.new.objects ≡ 16 }
{
    let mut sum = 0_u64;
    for _ in 0..1_000_000 {
        match graph.add(i, j) {
            Ok(()) => graph.undo(),
            Err(cycle) => sum = sum.wrapping_add(u64::from(cycle.len)),
        }
    }
    sum
}

/// The objects of the orders and cycles that complete the graph, one call after the other.
fn completed(graph: &OrderGraph, forced: &[(u32, u32)]) -> u64
    requires objects { graph.now.objects ≡ 16 }
    requires forced { AreAmong 16 forced.now }
{
    let mut sum = 0_u64;
    for _ in 0..1_000_000 {
        match graph.complete(forced) {
            Ok(order) => sum = sum.wrapping_add(u64::from(order.len)),
            Err(cycle) => sum = sum.wrapping_add(u64::from(cycle.len)),
        }
    }
    sum
}

// 15 before 14, 14 before 13, and so on: the order that is found last
static CHAIN: [(u32, u32); 15] = [
    (1, 0),
    (2, 1),
    (3, 2),
    (4, 3),
    (5, 4),
    (6, 5),
    (7, 6),
    (8, 7),
    (9, 8),
    (10, 9),
    (11, 10),
    (12, 11),
    (13, 12),
    (14, 13),
    (15, 14),
];

fn copies() -> [(u32, u32); 240] {
    let mut orders = [(0, 0); 240];
    for k in 0..240 {
        orders[k] = CHAIN[k % 15];
    }
    orders
}

/// A graph that holds all 120 pairs, each greater object before each lesser one.
fn graph_of_pairs() -> Option<OrderGraph>
    ensures { IfSome result (λ graph. (graph.objects ≡ 16) × (length graph.held < 256)) }
{
    let mut graph = OrderGraph::new(16);
    for k in 0..240 {
        let (i, j) = (k / 16 + 1, k % 16);
        if j < i && graph.add(i, j).is_err() {
            return None;
        }
    }
    Some(graph)
}

fn report(rt: &HostRuntime, what: &str, objects: u64, start: Instant) -> io::Result<()> {
    let spent = start.elapsed(rt)?;
    println!(rt; "{what}: {objects} objects")?;
    eprintln!(rt; "{what}: {} ns a call", spent.as_nanos() / 1_000_000)
}

/// Whether the graphs could be made.
fn timed(rt: &HostRuntime) -> io::Result<bool> {
    let copies = copies();
    let chain = &copies[..15];
    let part = &copies[..14];
    if !are_among(&copies) || !are_among(chain) || !are_among(part) {
        return Ok(false);
    }
    let (Some(mut all), Some(mut free), Some(mut pairs), Some(empty)) = (
        graph_of(&copies),
        graph_of(part),
        graph_of_pairs(),
        graph_of(&[]),
    ) else {
        return Ok(false);
    };

    let start = Instant::now(rt)?;
    let objects = added(&mut all, 0, 15);
    report(rt, "add round a chain held 16 times", objects, start)?;

    let start = Instant::now(rt)?;
    let objects = added(&mut pairs, 0, 15);
    report(rt, "add round all 120 pairs", objects, start)?;

    let start = Instant::now(rt)?;
    let objects = added(&mut free, 0, 15);
    report(rt, "add behind a chain of 15, and undo", objects, start)?;

    let start = Instant::now(rt)?;
    let objects = completed(&all, chain);
    report(rt, "complete a chain held 16 times", objects, start)?;

    let start = Instant::now(rt)?;
    let objects = completed(&empty, &copies);
    report(rt, "complete with 240 forced orders", objects, start)?;

    let start = Instant::now(rt)?;
    let objects = completed(&all, &[(0, 15)]);
    report(rt, "complete round a chain held 16 times", objects, start)?;
    Ok(true)
}

fn main(rt: HostRuntime) -> ExitCode {
    match timed(&rt) {
        Ok(true) => ExitCode::from(0),
        Ok(false) => ExitCode::from(1),
        Err(_) => ExitCode::from(8),
    }
}
