//! Leaves and splits, as a look answers them.

ghost use Rattle.std.specs.Prelude.{◌≡◌, ◌<◌, ◌≤◌, [], ◌∷◌, ◌++◌, All, length, drop, take, slice_index_or, IfOk, MatchOption};
ghost use Rattle.node_looks.specs.Candidates.{IsOpenable, choices_of};
ghost use Rattle.node_looks.specs.Looks.{IsLook, IsVisit};
ghost use Rattle.node_looks.specs.Sites.{EarnsPairAt, IsLookAt, IsOnOrEarnedAt, IsSite, MaySplit};
ghost use Rattle.plan_laws.specs.Looking.{OnPath};
ghost use Rattle.seq_model.specs.Trees.{IsCycle};
ghost use Rattle.seq_model.specs.declared.tree.Choice.TheVariants as Choices;
ghost use Rattle.seq_model.specs.declared.tree.Node.TheVariants as Nodes;

use crate::Look;
use crate::advice::visit_of;
use crate::site::Site;
use owned_lists::Items;
use pair_constraints::Kept;
use seq_limits::MOST_OBJECTS;
use seq_model::{Choice, Job, Node};
use std::alloc::{AllocError, Global};

/// The numbers below n, rising.
pub(crate) fn in_order(alloc: Global, n: u32) -> Result<Items<u32>, AllocError>
    ensures { IfOk result (IsVisit n) }
{
    let mut visit = Vec::with_capacity(alloc, n as usize)?;
    for k in 0..n {
        visit.push(k)?;
    }
    Ok(Items::from_vec(visit))
}

fn two_orders(alloc: Global, i: u32, j: u32) -> Result<Items<Choice>, AllocError>
    ensures { IfOk result (λ c. c ≡ Choices.Before i j ∷ Choices.Before j i ∷ []) }
{
    let mut choices = Items::new(alloc);
    choices.push(Choice::Before { i, j })?;
    choices.push(Choice::Before { i: j, j: i })?;
    Ok(choices)
}

/// The split by the order of two objects.
pub(crate) fn order_split(alloc: Global, site: &Site, i: u32, j: u32) -> Result<Look, AllocError>
    requires { MaySplit site.now (Nodes.Order i j) }
    ensures { IfOk result (IsLookAt site.now) }
{
    let choices = two_orders(alloc, i, j)?;
    let visit = in_order(alloc, 2)?;
    Ok(Look::Split {
        node: Node::Order { i, j },
        choices,
        visit,
    })
}

fn side_choices(alloc: Global, kept: &Kept) -> Result<Items<Choice>, AllocError>
    ensures { IfOk result (λ c. c ≡ choices_of kept.now) }
{
    let limits = kept.limits.as_slice();
    let mut choices = Vec::with_capacity(alloc, limits.len())?;
    for limit in limits {
        choices.push(Choice::Side {
            contact: kept.contact,
            dir: limit.dir,
        })?;
    }
    Ok(Items::from_vec(choices))
}

/// The split by the sides of a contact, the least push first.
pub(crate) fn open_contact(alloc: Global, site: &Site, kept: &Kept) -> Result<Look, AllocError>
    requires site { IsSite site.now }
    requires openable { IsOpenable site.now kept.now }
    ensures { IfOk result (IsLookAt site.now) }
{
    let choices = side_choices(alloc, kept)?;
    let visit = visit_of(alloc, site, kept)?;
    Ok(Look::Split {
        node: Node::Side {
            contact: kept.contact,
            children: kept.limits.len() as u32,
        },
        choices,
        visit,
    })
}

/// The leaf of a cycle of orders of the path.
pub(crate) fn close_cycle(
    alloc: Global,
    job: &Job,
    extent: u32,
    path: &[Choice],
    objects: &[u32],
) -> Result<Look, AllocError>
    requires cycle { IsCycle (OnPath path.now) objects.now }
    requires few { length objects.now ≤ MOST_OBJECTS }
    ensures { IfOk result (IsLook job.now extent path.now) }
{
    let objects = Vec::from_slice(alloc, objects)?;
    Ok(Look::Close(Node::Cycle {
        objects: Items::from_vec(objects),
    }))
}

fn next_in(objects: &[u32], k: usize) -> u32
    requires { k < length objects.now }
    ensures { result ≡ slice_index_or (drop 1 objects.now ++ take 1 objects.now) k 0 }
{
    if k + 1 < objects.len() {
        objects[k + 1]
    } else {
        objects[0]
    }
}

// Two neighbours of a cycle that aren't ordered so on the path.
fn open_pair(site: &Site, objects: &[u32]) -> Option<(u32, u32)>
    requires site { IsSite site.now }
    requires known { All (λ o. o < MOST_OBJECTS) objects.now }
    requires cycle { IsCycle (IsOnOrEarnedAt site.now) objects.now }
    ensures { MatchOption result (IsCycle (OnPath site.now.path.now) objects.now)
        (λ o. EarnsPairAt site.now o.0 o.1) }
{
    for k in 0..objects.len() {
        let a = objects[k];
        let b = next_in(objects, k);
        if !site.is_before(a, b) {
            return Some((a, b));
        }
    }
    None
}

/// What is to be done where a cycle of orders runs along the path but for pairs that may be split.
pub(crate) fn cycle_look(alloc: Global, site: &Site, objects: &[u32]) -> Result<Look, AllocError>
    requires site { IsSite site.now }
    requires known { All (λ o. o < MOST_OBJECTS) objects.now }
    requires few { length objects.now ≤ MOST_OBJECTS }
    requires cycle { IsCycle (IsOnOrEarnedAt site.now) objects.now }
    ensures { IfOk result (IsLookAt site.now) }
{
    match open_pair(site, objects) {
        Some((a, b)) => order_split(alloc, site, a.min(b), a.max(b)),
        None => close_cycle(alloc, site.job, site.extent, site.path, objects),
    }
}
