ghost use Rattle.std.specs.Prelude.{◌≡◌, ◌≢◌, ℕ, ◌<◌, ◌≤◌, List, ◌++◌, MatchOption, MatchResult};
ghost use Rattle.object_orders.specs.Orders.{AreAmong, IsAmong, IsOrder, IsSimpleCycle};
ghost use Rattle.order_graph.specs.Sets.{HasMember, HasBefore, AreNoted};
ghost use Rattle.order_graph.specs.Searches.{IsFree, NoneFree, LeadsBack};

use crate::answers::{Cycle, Order};
use crate::row::Row;
use crate::sets::{Objects, any_of, below, shared, with, without};
use crate::walk::{Trail, follow};

/// For each object the set of those that are ordered before it, by the orders so far or by these.
pub fn before_with(before: &[Objects; 16], orders: &[(u32, u32)]) -> [Objects; 16]
    requires { AreAmong 16 orders.now }
    ensures { (held : List (ℕ × ℕ)) → AreNoted held before.now → AreNoted (held ++ orders.now) result }
{
    let mut more = *before;
    for &(i, j) in orders {
        more[j as usize] = with(more[j as usize], i);
    }
    more
}

/// An object that can be placed next: nothing that is left is ordered before it.
fn free(before: &[Objects; 16], left: Objects) -> Option<u32>
    ensures { MatchOption result (NoneFree before.now left) (IsFree before.now left) }
{
    let mut rest = left;
    while let Some(k) = any_of(rest) {
        match any_of(shared(before[k as usize], left)) {
            None => return Some(k),
            Some(_) => rest = without(rest, k),
        }
    }
    None
}

/// For each object that is left another one that is left and ordered before it.
fn next_backwards(before: &[Objects; 16], left: Objects) -> [Option<u32>; 16]
    requires { NoneFree before.now left }
    ensures { LeadsBack before.now left result }
{
    let mut next = [None; 16];
    let mut rest = left;
    while let Some(k) = any_of(rest) {
        next[k as usize] = any_of(shared(before[k as usize], left));
        rest = without(rest, k);
    }
    next
}

/// A cycle of objects that are left, where none of these is free.
fn cycle_among(before: &[Objects; 16], left: Objects, start: u32) -> Cycle
    requires start { HasMember left start }
    requires none { NoneFree before.now left }
    requires apart { (a b : ℕ) → HasBefore before.now a b → a ≢ b }
    ensures { (orders : List (ℕ × ℕ)) → AreNoted orders before.now → IsSimpleCycle orders result }
{
    match follow(&next_backwards(before, left), start) {
        Trail::End(_) => unreachable!("before each object another one is left"),
        Trail::Round(cycle) => cycle.reversed(),
    }
}

/// All `n` objects in an order that keeps the noted orders, or a cycle of these.
///
/// The places are filled from the first to the last. For each the objects that are left are looked at until one is
/// free: at 16 objects 16 looks, then 15, and so on, 136 at most.
///
/// Where none of the L objects left is free, L (L - 1) / 2 of these looks aren't taken. Each of the L gets its next
/// one backwards (L), and the walk back takes L + 1 turns that look at (L - 1) (L + 2) / 2 objects passed: 136 + 3 L
/// steps in all. The cycle is then moved to the front (16) and reversed (8).
pub fn order_of(n: u32, before: &[Objects; 16]) -> Result<Order, Cycle>
    requires some { 1 ≤ n }
    requires few { n ≤ 16 }
    requires among { (a b : ℕ) → HasBefore before.now a b → IsAmong n (a, b) }
    ensures { (orders : List (ℕ × ℕ)) → AreNoted orders before.now →
        MatchResult result (IsOrder n orders) (IsSimpleCycle orders) }
{
    let mut left = below(n);
    let mut placed = Row::new();
    while let Some(k) = free(before, left) {
        placed.push(k);
        left = without(left, k);
    }
    match any_of(left) {
        None => Ok(placed.into_order()),
        Some(start) => Err(cycle_among(before, left, start)),
    }
}
