//! What is to be done where no candidate is left: an order of all objects makes a plan, and a cycle closes or is split.

ghost use Rattle.std.specs.Prelude.{All, length, IfOk};
ghost use Rattle.node_looks.specs.Candidates.{AreSettled, IsForcedOrder};
ghost use Rattle.node_looks.specs.Sites.{HoldsAll, IsLookAt, IsSite, IsZeroLookAt, IsZeroSite};

use crate::Look;
use crate::plans::plan_at;
use crate::site::Site;
use crate::splits::cycle_look;
use order_graph::OrderGraph;
use std::alloc::{AllocError, Global};

/// The plan of an order that keeps the orders of the path and the forced ones, or what their cycle shows.
pub(crate) fn complete(
    alloc: Global,
    site: &Site,
    graph: &OrderGraph,
    forced: &[(u32, u32)],
) -> Result<Look, AllocError>
    requires site { IsSite site.now }
    requires held { HoldsAll site.now graph.now }
    requires each { All (IsForcedOrder site.now) forced.now }
    requires settled { AreSettled site.now (length site.now.job.now.objects) 0 forced.now }
    ensures look { IfOk result (IsLookAt site.now) }
    ensures zero { IsZeroSite site.now → IfOk result (IsZeroLookAt site.now) }
{
    match graph.complete(forced) {
        Ok(order) => Ok(Look::Found(plan_at(alloc, site, &order.objects[..order.len as usize])?)),
        Err(cycle) => cycle_look(alloc, site, &cycle.objects[..cycle.len as usize]),
    }
}
