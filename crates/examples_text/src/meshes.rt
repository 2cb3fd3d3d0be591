//! The grammar by examples: each refusal with its place, and meshes with how many facets they keep and drop.

use decimal_lengths::Decimal::{BadByte, Empty, NoDigit, TooFar, TooLong};
use seq_model::{Facet, Point3};
use std::alloc::Global;
use stl_text::Keyword::{
    Endfacet, Endloop, FacetOrEndsolid, Loop, Normal, NormalWord, Outer, Solid, Vertex,
};
use stl_text::Stl::{Binary, Expected, NoFacet, Number};
use stl_text::{Stl, read_mesh};

static MALFORMED: [(&[u8], Stl); 45] = [
    // the first line of a solid
    (b"", Expected(Solid, 0)),
    (b" \t\r\n", Expected(Solid, 4)),
    (b"solids\nendsolid\n", Expected(Solid, 0)),
    (b"solid\x0b\nendsolid\n", Expected(Solid, 0)),
    (b"\n\n facet", Expected(Solid, 3)),
    (&[b' '; 84], Expected(Solid, 84)),
    (b"\xef\xbb\xbfsolid\n", Expected(Solid, 0)),
    // a facet or the end of the solid
    (b"solid", Expected(FacetOrEndsolid, 5)),
    (b"solid endsolid", Expected(FacetOrEndsolid, 14)),
    (b"solid a\nfacets", Expected(FacetOrEndsolid, 8)),
    (b"solid a\n  end solid", Expected(FacetOrEndsolid, 10)),
    (b"solid a\rvertex 0", Expected(FacetOrEndsolid, 8)),
    (
        b"solid a\nfacet normal 0 0 1 outer loop vertex 0 0 0 vertex 1 0 0 vertex 0 1 0 endloop endfacet",
        Expected(FacetOrEndsolid, 93),
    ),
    (
        b"solid a\nfacet normal 0 0 1 outer loop vertex 0 0 0 vertex 1 0 0 vertex 0 1 0 endloop endfacet\nsolid b\n",
        Expected(FacetOrEndsolid, 94),
    ),
    // the head of a facet
    (b"solid a\nfacet", Expected(Normal, 13)),
    (b"solid a\nfacet\tnorm 0 0 1", Expected(Normal, 14)),
    (b"solid a\rfacet\r0 0 1", Expected(Normal, 14)),
    (b"solid a\nfacet normal", Expected(NormalWord, 20)),
    (b"solid a\nfacet normal 0 0 \n", Expected(NormalWord, 26)),
    (b"solid a\nfacet normal 0 0 1 loop", Expected(Outer, 27)),
    (b"solid a\nfacet normal 0 1 outer loop", Expected(Outer, 31)),
    (
        b"solid a\nfacet normal 0 0 1 outer vertex",
        Expected(Loop, 33),
    ),
    // the corners
    (
        b"solid a\nfacet normal 0 0 1 outer loop",
        Expected(Vertex, 37),
    ),
    (
        b"solid a\nfacet normal 0 0 1 outer loop endloop",
        Expected(Vertex, 38),
    ),
    (
        b"solid a\nfacet normal 0 0 1 outer loop vertex 0 0 0 vertex 1 0 0 endloop",
        Expected(Vertex, 64),
    ),
    (
        b"solid a\nfacet normal 0 0 1 outer loop vertex 0 0 0 0 vertex",
        Expected(Vertex, 51),
    ),
    (
        b"solid a\nfacet normal 0 0 1 outer loop vertex",
        Number(44, Empty),
    ),
    (
        b"solid a\nfacet normal 0 0 1 outer loop vertex 0 vertex 1",
        Number(47, BadByte(0)),
    ),
    (
        b"solid a\nfacet normal 0 0 1 outer loop vertex 0 0 1,5 0",
        Number(49, BadByte(1)),
    ),
    (
        b"solid a\nfacet normal 0 0 1 outer loop vertex 0 0 3e endloop",
        Number(49, NoDigit),
    ),
    (
        b"solid a\nfacet normal 0 0 1 outer loop vertex 10000.0005 0 0",
        Number(45, TooFar),
    ),
    (
        b"solid a\nfacet normal 0 0 1 outer loop vertex 00000000000000000000000000000000000000000000000000000000000000000 0 0",
        Number(45, TooLong),
    ),
    (
        b"solid a\nfacet normal 0 0 1 outer loop vertex 0 nan x y",
        Number(47, BadByte(0)),
    ),
    (
        b"SOLID\r\nFacet NORMAL nan inf -\r\nOUTER LOOP\r\nVERTEX 0 0 oops",
        Number(54, BadByte(0)),
    ),
    (
        b"solid c\nfacet normal 0 0 1\nouter loop\nvertex 0 0 0\nvertex 1 0 0\nvertex 1 1",
        Number(74, Empty),
    ),
    // the end of a facet
    (
        b"solid a\nfacet normal 0 0 1 outer loop vertex 0 0 0 vertex 1 0 0 vertex 0 1 0 vertex 0 0 1",
        Expected(Endloop, 77),
    ),
    (
        b"solid a\nfacet normal 0 0 1 outer loop vertex 0 0 0 vertex 1 0 0 vertex 0 1 0 end loop",
        Expected(Endloop, 77),
    ),
    (
        b"solid a\nfacet normal 0 0 1 outer loop vertex 0 0 0 vertex 1 0 0 vertex 0 1 0 endloop endsolid",
        Expected(Endfacet, 85),
    ),
    (
        b"solid a\nfacet normal 0 0 1 outer loop vertex 0 0 0 vertex 1 0 0 vertex 0 1 0 endloop",
        Expected(Endfacet, 84),
    ),
    // behind the end of a solid
    (
        b"solid a\nfacet normal 0 0 1 outer loop vertex 0 0 0 vertex 1 0 0 vertex 0 1 0 endloop endfacet\nendsolid a\nfacet",
        Expected(Solid, 105),
    ),
    (
        b"solid a\nfacet normal 0 0 1 outer loop vertex 0 0 0 vertex 1 0 0 vertex 0 1 0 endloop endfacet\nendsolid a\nsolid",
        Expected(FacetOrEndsolid, 110),
    ),
    (
        b"solid a\nfacet normal 0 0 1 outer loop vertex 0 0 0 vertex 1 0 0 vertex 0 1 0 endloop endfacet\nendsolid a\nsolid b\nendsolid b\nend",
        Expected(Solid, 124),
    ),
    // no facet
    (b"solid\nendsolid\n", NoFacet),
    (b"solid\nendsolid", NoFacet),
    (
        b"solid a\nendsolid a\r\n\r\nsolid b\nendsolid b facet",
        NoFacet,
    ),
];

// The file, and how many facets are kept and dropped.
static MESHES: [(&[u8], usize, u32); 5] = [
    // one facet
    (
        b"solid a\nfacet normal 0 0 1 outer loop vertex 0 0 0 vertex 1 0 0 vertex 0 1 0 endloop endfacet\nendsolid a\n",
        1,
        0,
    ),
    // two solids
    (
        b"\r\nsolid a\nfacet normal 0 0 1 outer loop vertex 0 0 0 vertex 1 0 0 vertex 0 1 0 endloop endfacet\nendsolid a\n\tsolid a\nfacet normal 0 0 1 outer loop vertex 0 0 0 vertex 1 0 0 vertex 0 1 0 endloop endfacet\nendsolid  of all",
        2,
        0,
    ),
    // equal corners after rounding
    (
        b"solid a\nfacet normal 0 0 1 outer loop vertex 0 0 0 vertex 1 0 0 vertex 0.9995 0 0.0004 endloop endfacet\nendsolid",
        0,
        1,
    ),
    (
        b"sOlId\nFACET NORMAL NAN - facet OUTER LOOP VERTEX 0 0 0 VERTEX 1 0 0 VERTEX 0 1 0 ENDLOOP ENDFACET\nfacet normal 0 0 1 outer loop vertex 0 0 0 vertex 0 1 0 vertex 0 1 0 endloop endfacet\neNdSoLiD",
        1,
        1,
    ),
    // a cube of 20 mm
    (
        b"solid cube\n\
facet normal 0 0 0\n\
outer loop\n\
vertex 0 0 0\n\
vertex 20 20 0\n\
vertex 20 0 0\n\
endloop\n\
endfacet\n\
facet normal 0 0 0\n\
outer loop\n\
vertex 0 0 0\n\
vertex 0 20 0\n\
vertex 20 20 0\n\
endloop\n\
endfacet\n\
facet normal 0 0 0\n\
outer loop\n\
vertex 0 0 20\n\
vertex 20 0 20\n\
vertex 20 20 20\n\
endloop\n\
endfacet\n\
facet normal 0 0 0\n\
outer loop\n\
vertex 0 0 20\n\
vertex 20 20 20\n\
vertex 0 20 20\n\
endloop\n\
endfacet\n\
facet normal 0 0 0\n\
outer loop\n\
vertex 0 0 0\n\
vertex 20 0 0\n\
vertex 20 0 20\n\
endloop\n\
endfacet\n\
facet normal 0 0 0\n\
outer loop\n\
vertex 0 0 0\n\
vertex 20 0 20\n\
vertex 0 0 20\n\
endloop\n\
endfacet\n\
facet normal 0 0 0\n\
outer loop\n\
vertex 20 0 0\n\
vertex 20 20 0\n\
vertex 20 20 20\n\
endloop\n\
endfacet\n\
facet normal 0 0 0\n\
outer loop\n\
vertex 20 0 0\n\
vertex 20 20 20\n\
vertex 20 0 20\n\
endloop\n\
endfacet\n\
facet normal 0 0 0\n\
outer loop\n\
vertex 20 20 0\n\
vertex 0 20 0\n\
vertex 0 20 20\n\
endloop\n\
endfacet\n\
facet normal 0 0 0\n\
outer loop\n\
vertex 20 20 0\n\
vertex 0 20 20\n\
vertex 20 20 20\n\
endloop\n\
endfacet\n\
facet normal 0 0 0\n\
outer loop\n\
vertex 0 20 0\n\
vertex 0 0 0\n\
vertex 0 0 20\n\
endloop\n\
endfacet\n\
facet normal 0 0 0\n\
outer loop\n\
vertex 0 20 0\n\
vertex 0 0 20\n\
vertex 0 20 20\n\
endloop\n\
endfacet\n\
endsolid cube\n",
        12,
        0,
    ),
];

static ROUNDED: &[u8] =
    b"solid\nfacet normal - - - outer loop vertex 1.0005 -2e1 .5 vertex 0 0 4.9e-4 \
    vertex -1.0005 10000 +3 endloop endfacet endsolid";

// How many facets are kept and dropped; none where the file is refused.
fn counts(alloc: Global, bytes: &[u8]) -> Option<(usize, u32)> {
    let mesh = read_mesh(alloc, bytes).ok()?;
    Some((mesh.facets.len(), mesh.dropped))
}

fn has_one_facet(alloc: Global, bytes: &[u8], facet: &Facet) -> bool {
    match read_mesh(alloc, bytes) {
        Ok(mesh) => match mesh.facets.as_slice() {
            [only] => *only == *facet,
            _ => false,
        },
        Err(_) => false,
    }
}

#[test]
fn meshes_are_refused(rt: HostRuntime) {
    for (bytes, want) in &MALFORMED {
        assert!(rt; read_mesh(rt.alloc(), bytes).err() == Some(*want));
    }
}

#[test]
fn meshes_are_read(rt: HostRuntime) {
    for (bytes, kept, dropped) in &MESHES {
        assert!(rt; counts(rt.alloc(), bytes) == Some((*kept, *dropped)));
    }
    let facet = Facet {
        a: Point3 {
            x: 1001,
            y: -20_000,
            z: 500,
        },
        b: Point3 { x: 0, y: 0, z: 0 },
        c: Point3 {
            x: -1001,
            y: 10_000_000,
            z: 3_000,
        },
    };
    assert!(rt; has_one_facet(rt.alloc(), ROUNDED, &facet));
}

#[test]
fn binary_files_are_told_by_their_length(rt: HostRuntime) {
    let mut bytes = [b' '; 684];
    bytes[..5].copy_from_slice(b"solid");
    bytes[80..84].copy_from_slice(&[12, 0, 0, 0]);
    assert!(rt; read_mesh(rt.alloc(), &bytes).err() == Some(Binary));
    let shorter = read_mesh(rt.alloc(), &bytes[..683]).err();
    assert!(rt; shorter == Some(Expected(FacetOrEndsolid, 683)));
}
