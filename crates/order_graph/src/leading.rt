ghost use Rattle.std.specs.Prelude.{◌≡◌, ◌≢◌, ◌↔◌, ℕ, ◌<◌, List, [], ◌∷◌, IsTrue, MatchOption};
ghost use Rattle.object_orders.specs.Orders.{Leads, ClosesCycle};
ghost use Rattle.order_graph.specs.Sets.{AreNoted};
ghost use Rattle.order_graph.specs.Searches.{IsKnown, AllKnown, LeadsOn};

use crate::answers::Cycle;
use crate::sets::{Objects, any_of, apart, with, without};
use crate::walk::{Trail, follow};

/// For each object that leads to the goal the next one on a way there.
///
/// Each object comes into `todo` once and leaves it once: at most 31 turns.
fn next_towards(before: &[Objects; 16], goal: u32) -> [Option<u32>; 16]
    requires { goal < 16 }
    ensures leads { LeadsOn before.now goal result }
    ensures all { AllKnown before.now result goal }
{
    let mut next = [None; 16];
    let mut known = with(0, goal);
    let mut todo = known;
    while let Some(b) = any_of(todo) {
        match any_of(apart(before[b as usize], known)) {
            Some(a) => {
                next[a as usize] = Some(b);
                known = with(known, a);
                todo = with(todo, a);
            }
            None => todo = without(todo, b),
        }
    }
    next
}

/// The cycle that an order of `i` before `j` would close, where the orders lead from `j` to `i`.
pub fn cycle_closed_by(before: &[Objects; 16], i: u32, j: u32) -> Option<Cycle>
    requires i { i < 16 }
    requires j { j < 16 }
    requires apart { i ≢ j }
    ensures { (orders : List (ℕ × ℕ)) → AreNoted orders before.now →
        MatchOption result (Leads orders j i → ⊥) (ClosesCycle orders i j) }
{
    let next = next_towards(before, i);
    if next[j as usize].is_none() {
        return None;
    }
    match follow(&next, j) {
        Trail::End(way) => Some(way.into_cycle_from_last()),
        Trail::Round(_) => unreachable!("no next object leads round"),
    }
}
