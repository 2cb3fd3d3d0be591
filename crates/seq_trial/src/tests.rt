use super::*;
use std::test::Fail;

// of seed 0: the first three draws give one layer, 17 wide and 16 deep
static FRONT: &[u8] =
    b"solid o0\nfacet normal 0 0 0\nouter loop\nvertex 0 0 0\nvertex 17 16 0\nvertex 17 0 0\nendloop\nendfacet\n";

static BACK: &[u8] =
    b"facet normal 0 0 0\nouter loop\nvertex 0 16 0\nvertex 0 0 5\nvertex 0 16 5\nendloop\nendfacet\nendsolid o0\n";

// how many lines of a mesh begin a facet
fn facets(bytes: &[u8]) -> u64 {
    let mut count = 0u64;
    for line in bytes.split(|byte| *byte == b'\n') {
        if line.starts_with(b"facet ") {
            count = count.wrapping_add(1);
        }
    }
    count
}

#[test]
fn seed_0_makes_one_layer(rt: HostRuntime) -> Result<(), Fail> {
    let files = trial_files(rt.alloc(), 1, 0)?;
    let meshes = files.meshes.as_slice();
    let mesh = meshes[0].bytes.as_slice();
    assert_eq!(rt;
        (meshes.len(), meshes[0].name.as_str(), facets(mesh)),
        (1, "o0.stl", 12)
    );
    assert_eq!(rt;
        (mesh.starts_with(FRONT), mesh.ends_with(BACK)),
        (true, true)
    );
    Ok(())
}

// its fourth state gives the second object 18 layers
#[test]
fn each_object_is_drawn_after_the_one_before(rt: HostRuntime) -> Result<(), Fail> {
    let files = trial_files(rt.alloc(), 2, 0)?;
    let meshes = files.meshes.as_slice();
    assert_eq!(rt;
        (
            facets(meshes[0].bytes.as_slice()),
            facets(meshes[1].bytes.as_slice())
        ),
        (12, 216)
    );
    Ok(())
}
