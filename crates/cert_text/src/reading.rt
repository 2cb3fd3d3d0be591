ghost use Rattle.std.specs.Prelude.{◌≡◌, ◌≢◌, ◌<◌, ◌^◌, Ok, Err, IfOk, IfErr};
ghost use Rattle.seq_model.specs.declared.tree.Tree.{Tree};
ghost use Rattle.cert_text.specs.declared.block.CertRead.{CertRead};
ghost use Rattle.cert_text.specs.declared.block.Head.{Head};
ghost use Rattle.cert_text.specs.Heads.{before, refused, IsRefusedTree};
ghost use Rattle.cert_text.specs.TreeText.{IsTreeText};
ghost use Rattle.cert_text.specs.Laws.Counting.{IsNearFault};

use crate::heads::read_head;
use crate::lines::Stop;
use crate::nodes::{Fault, read_nodes};
use crate::{CertRead, Head, Kind};
use owned_lists::Items;
use seq_model::{Tree, What};
use std::alloc::Global;

// How many lines a block has before its nodes.
fn before(kind: Kind) -> u64
    ensures { result ≡ before kind }
{
    match kind {
        Kind::Certificate | Kind::OpenBudget => 2,
        Kind::OpenWide => 3,
    }
}

// Lines are counted from 1 at the block's first line, those of a fault from 0 at the first node.
fn refused(before: u64, fault: Fault) -> CertRead
    requires before { before < 4 }
    requires near { IsNearFault fault }
    ensures { result ≡ refused before fault }
{
    match fault {
        Fault::Stopped(_, Stop::Unended) => CertRead::Truncated,
        Fault::Stopped(k, Stop::Other) => CertRead::Line(before + k + 1, What::Node),
        Fault::Stopped(k, Stop::Range) => CertRead::Line(before + k + 1, What::Range),
        Fault::Stopped(k, Stop::Big) => CertRead::Big(before + k + 1),
        Fault::Deep(k) => CertRead::Deep(before + k + 1),
        Fault::After(k) => CertRead::Line(before + k + 1, What::After),
        Fault::Unended => CertRead::Truncated,
        Fault::NoMemory => CertRead::NoMemory,
    }
}

fn read_block(alloc: Global, bytes: &[u8], kind: Kind) -> Result<(Head, Tree), CertRead>
    ensures read { IfOk result (λ r. IsTreeText bytes.now kind r.0 r.1) }
    ensures refused { IfErr result (λ e. e ≢ CertRead.NoMemory → IsRefusedTree bytes.now kind e) }
{
    let (head, rest) = read_head(alloc, bytes, kind)?;
    match read_nodes(alloc, rest) {
        Ok(nodes) => Ok((
            head,
            Tree {
                nodes: Items::from_vec(nodes),
            },
        )),
        Err(fault) => Err(refused(before(kind), fault)),
    }
}

/// The head and the tree of a block of this kind. Takes memory by the lines that are read, and keeps a stack of its own.
pub fn read_tree(alloc: Global, bytes: &[u8], kind: Kind) -> Result<(Head, Tree), CertRead>
    ensures read { IfOk result (λ r. IsTreeText bytes.now kind r.0 r.1) }
    ensures refused { IfErr result (λ e. e ≢ CertRead.NoMemory → IsRefusedTree bytes.now kind e) }
    ensures refuses { (e : CertRead) → IsRefusedTree bytes.now kind e
        → result ≢ Err CertRead.NoMemory → result ≡ Err e }
    ensures all { (head : Head) (tree : Tree) → IsTreeText bytes.now kind head tree
        → result ≢ Err CertRead.NoMemory → result ≡ Ok (head, tree) }
{
    read_block(alloc, bytes, kind)
}
