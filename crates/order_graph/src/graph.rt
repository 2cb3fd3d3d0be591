ghost use Rattle.std.specs.Prelude.{◌≡◌, ◌≢◌, ◌↔◌, ℕ, ◌-◌, ◌<◌, ◌≤◌, List, [], ◌∷◌, ◌++◌, length, take, IsOk, IsErr, IfOk, IfErr, OnOk, OnErr};
ghost use Rattle.object_orders.specs.Orders.{Graph, IsGraph, AreAmong, Leads, ClosesCycle, IsSimpleCycle, HasCycle, IsOrder, HasOrder};
ghost use Rattle.order_graph.specs.Sets.{AreNoted, AreFormer};

use crate::answers::{Cycle, Order};
use crate::leading::cycle_closed_by;
use crate::placing::{before_with, order_of};
use crate::sets::{Objects, with};
use std::marker::Model;

/// Orders held among 1 to 16 objects, at most 256 of them.
#[derive(Drop)]
pub struct OrderGraph {
    n: u32,
    len: usize,
    held: [(u32, u32); 256],
    /// For each object the set of those that are ordered before it.
    before: [Objects; 16],
    /// For each order what `before` had for its second object until that order was held.
    former: [Objects; 256],
}

impl Model for OrderGraph {
    ghost Value = { Graph };

    ghost view = { λ g. record { objects = g.n; held = take g.len g.held } };

    ghost invariant = { λ g. (g.len ≤ 256)
        × IsGraph g.n (take g.len g.held)
        × AreNoted (take g.len g.held) g.before
        × AreFormer (take g.len g.held) g.former };
}

impl OrderGraph {
    /// A graph of `n` objects, numbered from 0, that holds no order.
    pub fn new(n: u32) -> Self
        requires some { 1 ≤ n }
        requires few { n ≤ 16 }
        ensures { result ≡ record { objects = n; held = [] } }
    {
        OrderGraph {
            n,
            len: 0,
            held: [(0, 0); 256],
            before: [0; 16],
            former: [0; 256],
        }
    }

    /// Holds that `i` comes before `j`, unless `j` leads to `i` already.
    ///
    /// Else the graph is as before, and `Err` has the cycle that the order would close: `i`, then `j`, then objects
    /// over which held orders lead back to `i`, each object once.
    ///
    /// At 16 objects it takes at most 183 steps, however many orders are held: 31 turns of the search back from `i`, 16
    /// turns along the way from `j` that look at 120 objects passed there, and 16 moves that put `i` first.
    pub fn add(&mut self, i: u32, j: u32) -> Result<(), Cycle>
        requires first { i < self.old.objects }
        requires second { j < self.old.objects }
        requires apart { i ≢ j }
        requires room { length self.old.held < 256 }
        ensures held { OnOk result (self.new ≡ record self.old { held = self.old.held ++ (i, j) ∷ [] }) }
        ensures refused { IsErr result ↔ Leads self.old.held j i }

        // Of several cycles any one may be answered.
        ensures cycle { IfErr result (ClosesCycle self.old.held i j) }
        ensures unchanged { OnErr result (self.new ≡ self.old) }
    {
        if let Some(cycle) = cycle_closed_by(&self.before, i, j) {
            return Err(cycle);
        }
        let former = self.before[j as usize];
        self.held[self.len] = (i, j);
        self.former[self.len] = former;
        self.before[j as usize] = with(former, i);
        self.len += 1;
        Ok(())
    }

    /// Takes away the order that was held last.
    pub fn undo(&mut self)
        requires { 0 < length self.old.held }
        ensures { self.new ≡ record self.old { held = take (length self.old.held - 1) self.old.held } }
    {
        self.len -= 1;
        let (_, j) = self.held[self.len];
        self.before[j as usize] = self.former[self.len];
    }

    /// Puts all objects in an order that keeps the held orders and the forced ones, or finds a cycle of these.
    ///
    /// It takes one step for each forced order, and at 16 objects at most 208 besides, however many orders are held. An
    /// order takes at most 136 looks for an object that can be placed. A cycle among L objects that are left takes at
    /// most 3 L steps more than these 136, and then 24 moves that put its objects in turn.
    pub fn complete(&self, forced: &[(u32, u32)]) -> Result<Order, Cycle>
        requires { AreAmong self.now.objects forced.now }
        ensures order { IfOk result (IsOrder self.now.objects (self.now.held ++ forced.now)) }
        ensures cycle { IfErr result (IsSimpleCycle (self.now.held ++ forced.now)) }

        // The answer isn't a matter of choice, though the order and the cycle may be.
        ensures order_exactly { IsOk result ↔ HasOrder self.now.objects (self.now.held ++ forced.now) }
        ensures cycle_exactly { IsErr result ↔ HasCycle (self.now.held ++ forced.now) }

        // The held orders have no cycle of their own: where there is a cycle, it takes a forced order.
        ensures acyclic { HasCycle self.now.held → ⊥ }
        ensures whole { IfOk result (λ order. length order ≡ self.now.objects) }
    {
        let before = before_with(&self.before, forced);
        order_of(self.n, &before)
    }
}
