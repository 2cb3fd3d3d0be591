ghost use Rattle.std.specs.Prelude.{◌≡◌, ◌≢◌, ◌≤◌, ◌<◌, ◌+◌, ◌∷◌, ◌++◌, ℕ, List, [], length, reverse, replicate, All, Result, Ok, Err, IfOk, IfErr, OnOk, MatchOption};
ghost use Rattle.seq_model.specs.Trees.{arity};
ghost use Rattle.cert_text.specs.declared.lines.Stop.{Stop};
ghost use Rattle.cert_text.specs.Lines.{line_at};
ghost use Rattle.cert_text.specs.Nodes.{AreTree, IsRefusedAt};
ghost use Rattle.cert_text.specs.Laws.Counting.{IsOpening, IsNearFault, due};

use crate::lines::{LineFault, Stop, node_line};
use seq_limits::MOST_NODES;
use seq_model::Node;
use std::alloc::{AllocError, Global};
use text_lines::has_line_end;

/// Why node lines aren't read as a tree. Lines count from 0 at the first node.
#[derive(Clone, Copy, Debug, PartialEq, Eq)]
pub enum Fault {
    Stopped(u64, Stop),
    Deep(u64),
    After(u64),
    Unended,
    NoMemory,
}

/// An open split: how many of its children are still to come, and how many splits are above these.
#[derive(Clone, Copy, Debug)]
pub struct Opening {
    pub left: u32,
    pub depth: u32,
}

fn children(node: &Node) -> u32
    ensures { result ≡ arity node.now }
{
    match node {
        Node::Order { .. } => 2,
        Node::Side { children, .. } => *children,
        _ => 0,
    }
}

fn put(openings: &mut Vec<Opening>, left: u32, depth: u32) -> Result<(), AllocError>
    ensures { OnOk result
        (openings.new.items ≡ openings.old.items ++ record { left = left; depth = depth } ∷ []) }
{
    openings.push(Opening { left, depth })?;
    Ok(())
}

fn first(alloc: Global) -> Result<Vec<Opening>, Fault>
    ensures due { IfOk result (λ openings. due (reverse openings.items) ≡ 0 ∷ []) }
    ensures all { IfOk result (λ openings. All IsOpening openings.items) }
    ensures fault { IfErr result (λ e. e ≡ Fault.NoMemory) }
{
    let mut openings = Vec::new(alloc);
    if put(&mut openings, 1, 0).is_err() {
        return Err(Fault::NoMemory);
    }
    Ok(openings)
}

// The depth of the next child that is to come.
fn next(openings: &mut Vec<Opening>) -> Result<Option<u32>, Fault>
    requires { All IsOpening openings.old.items }
    ensures next { IfOk result
        (λ d. MatchOption d (openings.old.items ≡ [])
        (λ d. due (reverse openings.old.items) ≡ d ∷ due (reverse openings.new.items))) }
    ensures depth { IfOk result
        (λ d. MatchOption d (openings.new.items ≡ []) (λ d. d ≤ 1_000_001)) }
    ensures all { OnOk result (All IsOpening openings.new.items) }
    ensures fault { IfErr result (λ e. e ≡ Fault.NoMemory) }
{
    let Some(opening) = openings.pop() else {
        return Ok(None);
    };
    if opening.left > 1 {
        if put(openings, opening.left - 1, opening.depth).is_err() {
            return Err(Fault::NoMemory);
        }
    }
    Ok(Some(opening.depth))
}

// Opens a split that has children.
fn open(openings: &mut Vec<Opening>, count: u32, depth: u32) -> Result<(), Fault>
    requires all { All IsOpening openings.old.items }
    requires depth { depth ≤ 1_000_001 }
    ensures due { OnOk result
        (due (reverse openings.new.items)
        ≡ replicate count depth ++ due (reverse openings.old.items)) }
    ensures all { OnOk result (All IsOpening openings.new.items) }
    ensures fault { IfErr result (λ e. e ≡ Fault.NoMemory) }
{
    if count > 0 {
        if put(openings, count, depth).is_err() {
            return Err(Fault::NoMemory);
        }
    }
    Ok(())
}

fn keep(nodes: &mut Vec<Node>, node: Node) -> Result<(), Fault>
    ensures kept { OnOk result (nodes.new.items ≡ nodes.old.items ++ node ∷ []) }
    ensures fault { IfErr result (λ e. e ≡ Fault.NoMemory) }
{
    if nodes.push(node).is_err() {
        return Err(Fault::NoMemory);
    }
    Ok(())
}

// One node line: it takes bytes.
fn line(alloc: Global, bytes: &[u8]) -> Result<(Node, &[u8]), LineFault>
    ensures read { IfOk result (λ r. line_at bytes.now ≡ Ok (r.0, r.1.now)) }
    ensures shorter { IfOk result (λ r. length r.1.now < length bytes.now) }
    ensures stops { (stop : Stop) → result ≡ Err (LineFault.Stop stop)
        → line_at bytes.now ≡ Err stop }
{
    node_line(alloc, bytes)
}

/// The nodes of one whole tree, a line each.
pub(crate) fn read_nodes(alloc: Global, bytes: &[u8]) -> Result<Vec<Node>, Fault>
    ensures read { IfOk result (λ nodes. AreTree line_at bytes.now nodes.items) }
    ensures refused { IfErr result
        (λ fault. fault ≢ Fault.NoMemory → IsRefusedAt line_at bytes.now fault) }
    ensures near { IfErr result IsNearFault }
{
    let mut nodes = Vec::new(alloc);
    let mut openings = first(alloc)?;
    let mut rest = bytes;
    while let Some(depth) = next(&mut openings)? {
        let number = nodes.len() as u64;
        match line(alloc, rest) {
            Err(LineFault::NoMemory) => return Err(Fault::NoMemory),
            Err(LineFault::Stop(stop)) => return Err(Fault::Stopped(number, stop)),
            Ok((node, after)) => {
                if u64::from(depth) > MOST_NODES {
                    return Err(Fault::Deep(number));
                }
                open(&mut openings, children(&node), depth + 1)?;
                keep(&mut nodes, node)?;
                rest = after;
            }
        }
    }
    if rest.is_empty() {
        return Ok(nodes);
    }
    if has_line_end(rest) {
        Err(Fault::After(nodes.len() as u64))
    } else {
        Err(Fault::Unended)
    }
}
