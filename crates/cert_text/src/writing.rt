ghost use Rattle.std.specs.Prelude.{◌≡◌, ◌++◌, ◌∷◌, [], IfOk, OnOk, pos, map, codes};
ghost use Rattle.seq_num.specs.Spelling.{spelling};
ghost use Rattle.cert_text.specs.TreeText.{number_text, numbers_text, pair_text, pairs_text, pair_of, basis_text, note_text, wide_text, head_text, node_text, nodes_text, tree_text, first_line, extent_word, side_numbers};

use crate::{Head, Kind};
use seq_model::{Contact, Mult, Node, Tree, WideNote};
use seq_num::NoMemory;
use std::alloc::{AllocError, Global};
use text_lines::put_number;

// Appends a text and a number of 64 bits at most.
fn put_count(to: &mut Vec<u8>, text: &[u8], n: u64) -> Result<(), AllocError>
    ensures { OnOk result (to.new.items ≡ to.old.items ++ (text.now ++ spelling (pos n))) }
{
    put_number(to, text, i128::from(n))
}

fn put_counts(to: &mut Vec<u8>, between: &[u8], counts: &[u32]) -> Result<(), AllocError>
    ensures { OnOk result
        (to.new.items ≡ to.old.items ++ numbers_text between.now (map pos counts.now)) }
{
    for n in counts {
        put_count(to, between, u64::from(*n))?;
    }
    to.extend_from_slice(b"\n")
}

fn put_mult(to: &mut Vec<u8>, mult: &Mult) -> Result<(), AllocError>
    ensures { OnOk result (to.new.items ≡ to.old.items ++ pair_text (pair_of mult.now)) }
{
    put_count(to, b" ", u64::from(mult.row))?;
    put_number(to, b":", i128::from(mult.times))
}

fn put_mults(to: &mut Vec<u8>, mults: &[Mult]) -> Result<(), AllocError>
    ensures { OnOk result (to.new.items ≡ to.old.items ++ pairs_text (map pair_of mults.now)) }
{
    for mult in mults {
        put_mult(to, mult)?;
    }
    to.extend_from_slice(b"\n")
}

fn put_side(to: &mut Vec<u8>, contact: &Contact, children: u32) -> Result<(), AllocError>
    ensures { OnOk result
        (to.new.items ≡ to.old.items
        ++ (codes "side" ++ numbers_text (codes " ") (side_numbers contact.now children))) }
{
    let Contact { i, zi, part, zj, j } = *contact;
    to.extend_from_slice(b"side")?;
    put_counts(to, b" ", &[i, zi, part, zj, j, children])
}

fn put_node(to: &mut Vec<u8>, node: &Node) -> Result<(), AllocError>
    ensures { OnOk result (to.new.items ≡ to.old.items ++ node_text node.now) }
{
    match node {
        Node::Order { i, j } => {
            to.extend_from_slice(b"order")?;
            put_counts(to, b" ", &[*i, *j])
        }
        Node::Side { contact, children } => put_side(to, contact, *children),
        Node::Bound { mults } => {
            to.extend_from_slice(b"bound")?;
            put_mults(to, mults.as_slice())
        }
        Node::Cycle { objects } => {
            to.extend_from_slice(b"cycle")?;
            put_counts(to, b" ", objects.as_slice())
        }
        Node::Pending => to.extend_from_slice(b"pending\n"),
    }
}

fn put_nodes(to: &mut Vec<u8>, nodes: &[Node]) -> Result<(), AllocError>
    ensures { OnOk result (to.new.items ≡ to.old.items ++ nodes_text nodes.now) }
{
    for node in nodes {
        put_node(to, node)?;
    }
    Ok(())
}

fn put_basis(to: &mut Vec<u8>, basis: &[u32]) -> Result<(), AllocError>
    ensures { OnOk result
        (to.new.items ≡ to.old.items ++ (codes " " ++ basis_text (map pos basis.now))) }
{
    match basis.split_first() {
        None => to.extend_from_slice(b" \n"),
        Some((first, more)) => {
            put_count(to, b" ", u64::from(*first))?;
            put_counts(to, b",", more)
        }
    }
}

fn put_note(to: &mut Vec<u8>, note: &WideNote) -> Result<(), AllocError>
    ensures { OnOk result (to.new.items ≡ to.old.items ++ note_text note.now) }
{
    put_count(to, b"wide ", note.node)?;
    put_count(to, b" ", u64::from(note.row))?;
    put_basis(to, note.basis.as_slice())
}

impl Kind {
    pub(crate) fn first_line(self) -> &'static [u8]
        ensures { result.now ≡ first_line self }
    {
        match self {
            Kind::Certificate => b"certificate 1\n",
            Kind::OpenBudget | Kind::OpenWide => b"opentree 1\n",
        }
    }

    pub(crate) fn extent_word(self) -> &'static [u8]
        ensures { result.now ≡ extent_word self }
    {
        match self {
            Kind::Certificate => b"excludes ",
            Kind::OpenBudget | Kind::OpenWide => b"tried ",
        }
    }
}

fn put_head(to: &mut Vec<u8>, head: &Head) -> Result<(), AllocError>
    ensures { OnOk result (to.new.items ≡ to.old.items ++ head_text head.now) }
{
    to.extend_from_slice(head.kind.first_line())?;
    put_count(to, head.kind.extent_word(), u64::from(head.extent))?;
    to.extend_from_slice(b"\n")?;
    match &head.wide {
        None => Ok(()),
        Some(note) => put_note(to, note),
    }
}

/// The text of a tree block.
pub fn write_tree(alloc: Global, head: &Head, tree: &Tree) -> Result<Vec<u8>, NoMemory>
    ensures { IfOk result (λ text. text.items ≡ tree_text head.now tree.now) }
{
    let mut text = Vec::new(alloc);
    put_head(&mut text, head)?;
    put_nodes(&mut text, tree.nodes.as_slice())?;
    Ok(text)
}
