//! Writes a tree of 999,999 nodes, whose text has 20 MB, and reads it again; and reads a chain of 1,000,000 splits, and one of a
//! split more, which is too deep. It prints what came of it, and on the error stream the milliseconds; `bench/run trees`
//! runs it. Nothing is promised here but that the calls may be made.
#![tactic(auto)]

use cert_text::{CertRead, Head, Kind, read_tree, write_tree};
use owned_lists::Items;
use seq_model::{Contact, Mult, Node, Tree};
use std::alloc::{AllocError, Global};
use std::io;
use std::process::ExitCode;
use std::time::Instant;

fn bound(alloc: Global) -> Result<Node, AllocError> {
    let mut mults = Items::new(alloc);
    mults.push(Mult {
        row: 2,
        times: 1234,
    })?;
    mults.push(Mult {
        row: 35,
        times: 5678,
    })?;
    Ok(Node::Bound { mults })
}

fn side(children: u32) -> Node {
    let contact = Contact {
        i: 3,
        zi: 12,
        part: 1,
        zj: 7,
        j: 15,
    };
    Node::Side { contact, children }
}

// A chain of splits, each with a bound as its first child.
fn tree(alloc: Global) -> Result<Tree, AllocError> {
    let mut nodes = Items::new(alloc);
    for _ in 0..499_999 {
        nodes.push(side(2))?;
        nodes.push(bound(alloc)?)?;
    }
    nodes.push(bound(alloc)?)?;
    Ok(Tree { nodes })
}

// A pending node below a chain of splits, each with one child.
fn chain(alloc: Global, splits: u32) -> Result<Vec<u8>, AllocError> {
    let mut text = Vec::from_slice(alloc, b"opentree 1\ntried 7\n")?;
    for _ in 0..splits {
        text.extend_from_slice(b"side 0 0 0 0 1 1\n")?;
    }
    text.extend_from_slice(b"pending\n")?;
    Ok(text)
}

fn nodes_of(alloc: Global, text: &[u8], kind: Kind) -> Result<usize, CertRead> {
    Ok(read_tree(alloc, text, kind)?.1.nodes.len())
}

fn report(rt: &HostRuntime, what: &str, start: Instant) -> io::Result<()> {
    let took = start.elapsed(rt)?;
    eprintln!(rt; "{what} {} ms", took.as_millis())
}

fn certificate(rt: &HostRuntime, alloc: Global) -> io::Result<()> {
    let Ok(tree) = tree(alloc) else {
        return println!(rt; "no memory");
    };
    let head = Head {
        kind: Kind::Certificate,
        extent: 45,
        wide: None,
    };
    let start = Instant::now(rt)?;
    let Ok(text) = write_tree(alloc, &head, &tree) else {
        return println!(rt; "no memory");
    };
    report(rt, "written", start)?;
    let start = Instant::now(rt)?;
    let read = nodes_of(alloc, &text, Kind::Certificate);
    report(rt, "read", start)?;
    println!(rt; "{} bytes, {read:?} nodes", text.len())
}

fn depth(rt: &HostRuntime, alloc: Global, splits: u32) -> io::Result<()> {
    let Ok(text) = chain(alloc, splits) else {
        return println!(rt; "no memory");
    };
    let start = Instant::now(rt)?;
    let read = nodes_of(alloc, &text, Kind::OpenBudget);
    report(rt, "read", start)?;
    println!(rt; "below {splits} splits: {read:?}")
}

fn run(rt: &HostRuntime) -> io::Result<()> {
    let alloc = rt.alloc();
    certificate(rt, alloc)?;
    depth(rt, alloc, 1_000_000)?;
    depth(rt, alloc, 1_000_001)
}

fn main(rt: HostRuntime) -> ExitCode {
    match run(&rt) {
        Ok(()) => ExitCode::from(0),
        Err(_) => ExitCode::from(8),
    }
}
