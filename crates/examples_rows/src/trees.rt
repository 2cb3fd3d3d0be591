ghost use Rattle.std.specs.Prelude.{◌≡◌, ◌<◌, ◌≢◌, ℕ, IfOk, length};
ghost use Rattle.refutation_tree.specs.Grown.{IsLeaf, node_of};
ghost use Rattle.seq_model.specs.declared.tree.Node.TheVariants as Nodes;

use owned_lists::Items;
use refutation_tree::Growing;
use seq_model::{Contact, Mult, Node, Tree};
use seq_num::NoMemory;
use std::alloc::{AllocError, Global};
use std::test::Fail;

// The nodes of a tree, a digit each: 1 an order, 2 a side, 3 a bound, 4 a cycle, 5 pending.
fn kinds(tree: &Tree) -> u64 {
    let mut kinds = 0u64;
    for node in tree.nodes.as_slice() {
        kinds = kinds.wrapping_mul(10).wrapping_add(kind(node));
    }
    kinds
}

fn kind(node: &Node) -> u64 {
    match node {
        Node::Order { .. } => 1,
        Node::Side { .. } => 2,
        Node::Bound { .. } => 3,
        Node::Cycle { .. } => 4,
        Node::Pending => 5,
    }
}

fn bound(alloc: Global) -> Result<Node, AllocError>
    ensures { IfOk result IsLeaf }
{
    let mut mults = Items::new(alloc);
    mults.push(Mult { row: 0, times: 1 })?;
    Ok(Node::Bound { mults })
}

// An order whose second child is split by three sides, and of these the second is closed.
fn grown(alloc: Global) -> Result<Growing, NoMemory>
    ensures { IfOk result (λ tree. length tree.made ≡ 6) }
{
    let mut tree = Growing::new(alloc, 2)?;
    tree.split(0, Node::Order { i: 0, j: 1 })?;
    let contact = Contact {
        i: 1,
        zi: 0,
        part: 1,
        zj: 0,
        j: 0,
    };
    tree.split(
        1,
        Node::Side {
            contact,
            children: 3,
        },
    )?;
    tree.close(
        4,
        Node::Cycle {
            objects: Items::new(alloc),
        },
    );
    Ok(tree)
}

// How many nodes a tree has, which, and the numbers of two of them.
type Seen = (u64, u64, u64, u64);

fn seen(tree: &Growing, first: u32, second: u32) -> Result<Seen, NoMemory>
    requires first { first < length tree.now.made }
    requires second { second < length tree.now.made }
{
    let numbers = (tree.number(first)?, tree.number(second)?);
    let whole = tree.whole()?;
    Ok((tree.node_count(), kinds(&whole), numbers.0, numbers.1))
}

fn split(alloc: Global) -> Result<Seen, NoMemory> {
    let mut tree = Growing::new(alloc, 2)?;
    let first = tree.split(0, Node::Order { i: 0, j: 1 })?;
    seen(&tree, first, 2)
}

fn split_twice(alloc: Global) -> Result<Seen, NoMemory> {
    let tree = grown(alloc)?;
    seen(&tree, 2, 4)
}

#[test]
fn nodes_stand_in_preorder(rt: HostRuntime) -> Result<(), Fail> {
    assert!(rt; split(rt.alloc())? == (3, 155, 1, 2));
    assert!(rt; split_twice(rt.alloc())? == (6, 125455, 5, 3));
    Ok(())
}

fn closed(alloc: Global) -> Result<Growing, NoMemory>
    ensures { IfOk result (λ tree. (k : ℕ) → k < length tree.made → node_of tree.made k ≢ Nodes.Pending) }
{
    let mut tree = Growing::new(alloc, 1)?;
    tree.close(0, bound(alloc)?);
    Ok(tree)
}

fn kinds_of_closed(alloc: Global) -> Result<u64, NoMemory> {
    let tree = closed(alloc)?;
    let nodes = tree.preorder()?;
    Ok(kinds(&nodes))
}

#[test]
fn one_closed_node_is_a_tree(rt: HostRuntime) -> Result<(), Fail> {
    assert_eq!(rt; kinds_of_closed(rt.alloc())?, 3);
    Ok(())
}
