use cert_text::CertRead::{Big, Line, Truncated};
use cert_text::Kind::{Certificate, OpenBudget, OpenWide};
use cert_text::{CertRead, Kind, read_tree, write_tree};
use seq_model::What::{After, Extent, Header, Node, Range, Wide as WideLine};
use std::alloc::{AllocError, Global};

// three lines, of 14, 12 and 10 bytes, and ten of nodes
static TWO_CUBES: &[u8] =
    b"certificate 1\nexcludes 45\norder 0 1\nside 0 0 1 0 1 4\nbound 2:1 4:1\nbound 3:1 4:1\nbound 0:1 4:1\nbound 1:1 4:1\nside 1 0 1 0 0 4\nbound 0:1 4:1\nbound 1:1 4:1\nbound 2:1 4:1\nbound 3:1 4:1\n";

// How many nodes a block has, or why it is refused.
fn nodes_of(alloc: Global, text: &[u8], kind: Kind) -> Result<usize, CertRead> {
    Ok(read_tree(alloc, text, kind)?.1.nodes.len())
}

// Whether a block is written as it was read.
fn is_written_again(alloc: Global, text: &[u8], kind: Kind) -> bool {
    let Ok((head, tree)) = read_tree(alloc, text, kind) else {
        return false;
    };
    match write_tree(alloc, &head, &tree) {
        Ok(again) => again.as_slice() == text,
        Err(_) => false,
    }
}

static READ: [(&[u8], Kind); 5] = [
    (b"opentree 1\ntried 1\npending\n", OpenBudget),
    (
        b"opentree 1\ntried 1000\nside 4294967295 1 2 3 4 1\ncycle 5 4294967295\n",
        OpenBudget,
    ),
    (
        b"opentree 1\ntried 7\nwide 4611686018427387903 4294967295 0,2,4294967295\norder 1 0\npending\nbound 0:0 4294967295:4611686018427387903\n",
        OpenWide,
    ),
    (
        b"opentree 1\ntried 7\nwide 0 0 0\ncycle 0 1 2 3 4 5 6 7 8 9 10 11 12 13 14 15\n",
        OpenWide,
    ),
    (
        b"certificate 1\nexcludes 9\nbound 0:1 1:1 2:1 3:1 4:1 5:1 6:1 7:1 8:1 9:1 10:1 11:1 12:1 13:1 14:1 15:1 16:1 17:1 18:1 19:1 20:1 21:1 22:1 23:1 24:1 25:1 26:1 27:1 28:1 29:1 30:1 31:1 32:1\n",
        Certificate,
    ),
];

#[test]
fn blocks_are_read_and_written_again(rt: HostRuntime) {
    assert!(rt; is_written_again(rt.alloc(), TWO_CUBES, Certificate));
    for (text, kind) in &READ {
        assert!(rt; is_written_again(rt.alloc(), text, *kind));
    }
}

#[test]
fn every_proper_prefix_is_truncated(rt: HostRuntime) {
    for (len, _) in TWO_CUBES.iter().enumerate() {
        assert!(rt; nodes_of(rt.alloc(), &TWO_CUBES[..len], Certificate) == Err(Truncated));
    }
}

// what stands behind `certificate 1`, and why it is refused
static REFUSED: [(&[u8], CertRead); 40] = [
    // the extent
    (b"tried 45\n", Line(2, Extent)),
    (b"excludes 0\n", Line(2, Extent)),
    (b"excludes 1001\n", Line(2, Extent)),
    (b"excludes 045\n", Line(2, Extent)),
    (b"excludes 45 \n", Line(2, Extent)),
    (b"excludes 45", Truncated),
    (b"excludes 45\r\n", Line(2, Extent)),
    // the form of a node line
    (b"excludes 45\n\n", Line(3, Node)),
    (b"excludes 45\norder 0 1 2\n", Line(3, Node)),
    (b"excludes 45\norder 0\n", Line(3, Node)),
    (b"excludes 45\norder  0 1\n", Line(3, Node)),
    (b"excludes 45\norder 0 -1\n", Line(3, Node)),
    (b"excludes 45\norder 0 01\n", Line(3, Node)),
    (b"excludes 45\nside 0 0 1 0 1 0\n", Line(3, Node)),
    (b"excludes 45\nside 0 0 1 0 1\n", Line(3, Node)),
    (b"excludes 45\nbound\n", Line(3, Node)),
    (b"excludes 45\nbound 1:1 0:1\n", Line(3, Node)),
    (b"excludes 45\nbound 1:1 1:1\n", Line(3, Node)),
    (b"excludes 45\nbound 1:-1\n", Line(3, Node)),
    (b"excludes 45\nbound 0 1\n", Line(3, Node)),
    (b"excludes 45\nbound 0:1,4:1\n", Line(3, Node)),
    (b"excludes 45\nside -1 0 1 0 4294967296 1\n", Line(3, Node)),
    (
        b"excludes 45\nbound 0:1 1:1 2:1 3:1 4:1 5:1 6:1 7:1 8:1 9:1 10:1 11:1 12:1 13:1 14:1 15:1 16:1 17:1 18:1 19:1 20:1 21:1 22:1 23:1 24:1 25:1 26:1 27:1 28:1 29:1 30:1 31:1 32:1 33:1\n",
        Line(3, Node),
    ),
    (b"excludes 45\ncycle\n", Line(3, Node)),
    (
        b"excludes 45\ncycle 0 1 2 3 4 5 6 7 8 9 10 11 12 13 14 15 16\n",
        Line(3, Node),
    ),
    (b"excludes 45\npending \n", Line(3, Node)),
    (b"excludes 45\nPending\n", Line(3, Node)),
    (
        b"excludes 45\norder 0 1267650600228229401496703205376\n",
        Line(3, Node),
    ),
    // its numbers, and its multipliers
    (b"excludes 45\norder 0 4294967296\n", Line(3, Range)),
    (b"excludes 45\ncycle 0 4294967296\n", Line(3, Range)),
    (b"excludes 45\nside 0 0 1 0 1 4294967296\n", Line(3, Range)),
    (
        b"excludes 45\nbound 4294967295:1 4294967296:1\n",
        Line(3, Range),
    ),
    (
        b"excludes 45\nbound 0:4611686018427387904 4294967296:1\n",
        Line(3, Range),
    ),
    (b"excludes 45\nbound 0:4611686018427387904\n", Big(3)),
    (
        b"excludes 45\nbound 0:4611686018427387904 0:1\n",
        Line(3, Node),
    ),
    // the tree
    (b"excludes 45\norder 0 1\n", Truncated),
    (b"excludes 45\nside 0 0 0 0 1 4294967295\n", Truncated),
    (
        b"excludes 45\norder 0 1\npending\nbound 0:4611686018427387904\n",
        Big(5),
    ),
    (b"excludes 45\npending\npending\n", Line(4, After)),
    (b"excludes 45\npending\npending", Truncated),
];

fn certificate(alloc: Global, rest: &[u8]) -> Result<Vec<u8>, AllocError> {
    let mut text = Vec::from_slice(alloc, b"certificate 1\n")?;
    text.extend_from_slice(rest)?;
    Ok(text)
}

fn nodes_behind(alloc: Global, rest: &[u8]) -> Result<usize, CertRead> {
    match certificate(alloc, rest) {
        Ok(text) => nodes_of(alloc, &text, Certificate),
        Err(_) => Err(CertRead::NoMemory),
    }
}

#[test]
fn blocks_are_refused(rt: HostRuntime) {
    for (rest, refusal) in &REFUSED {
        assert!(rt; nodes_behind(rt.alloc(), rest) == Err(*refusal));
    }
}

// blocks of any kind, and why they are refused
static OF_A_KIND: [(&[u8], Kind, CertRead); 14] = [
    (b"", Certificate, Truncated),
    (b"certificate 2\n", Certificate, Line(1, Header)),
    (
        b"opentree 1\ntried 7\npending\n",
        Certificate,
        Line(1, Header),
    ),
    (
        b"certificate 1\nexcludes 7\npending\n",
        OpenBudget,
        Line(1, Header),
    ),
    (
        b"opentree 1\nexcludes 7\npending\n",
        OpenBudget,
        Line(2, Extent),
    ),
    (
        b"opentree 1\ntried 7\nwide 0 0 0\npending\n",
        OpenBudget,
        Line(3, Node),
    ),
    (
        b"opentree 1\ntried 7\npending\n",
        OpenWide,
        Line(3, WideLine),
    ),
    (
        b"opentree 1\ntried 7\nwide 0 0\n",
        OpenWide,
        Line(3, WideLine),
    ),
    (
        b"opentree 1\ntried 7\nwide 0 0 1,1\n",
        OpenWide,
        Line(3, WideLine),
    ),
    (
        b"opentree 1\ntried 7\nwide 0 0 1 2\n",
        OpenWide,
        Line(3, WideLine),
    ),
    (
        b"opentree 1\ntried 7\nwide 4611686018427387904 0 0\n",
        OpenWide,
        Line(3, Range),
    ),
    (
        b"opentree 1\ntried 7\nwide 0 0 0,4294967296\n",
        OpenWide,
        Line(3, Range),
    ),
    (b"opentree 1\ntried 7\nwide 0 0 0", OpenWide, Truncated),
    (
        b"opentree 1\ntried 7\nwide 0 0 0\norder 0 1\npendin\n",
        OpenWide,
        Line(5, Node),
    ),
];

#[test]
fn blocks_of_each_kind_are_refused(rt: HostRuntime) {
    for (text, kind, refusal) in &OF_A_KIND {
        assert!(rt; nodes_of(rt.alloc(), text, *kind) == Err(*refusal));
    }
}
