use crate::meshes::{Mesh, file_of};
use crate::runs::{PLATE, outcome_of, see};
use std::test::Fail;

// The made object has one layer of 5 mm, 17 mm wide, and stands alone.
const ONE: &[u8] =
    b"trial 1 0\nobjects 1\nfacets 12\nzones 1\nseqplan 1\nstate found\ngrid 100\nextent 100\nscale 1\nplace 0 1 1\n";

// Words of one trial. The shelf isn't asked, whatever it holds.
static SPELT: [[&str; 3]; 2] = [["trial", "1", "0"], ["trial", "01", "000"]];

#[test]
fn one_made_object_is_arranged(rt: HostRuntime) -> Result<(), Fail> {
    for words in &SPELT {
        see(&rt, rt.alloc(), PLATE, &Mesh::Binary, words, (0, ONE, b""))?;
    }
    Ok(())
}

// 12 facets and 18 layers of 12. Object 0 has one band, so the bar never meets it where it is printed first: there is a plan.
#[test]
fn two_made_objects_have_a_plan_or_spend_the_budget(rt: HostRuntime) -> Result<(), Fail> {
    let mesh = file_of(rt.alloc(), &Mesh::Binary)?;
    let done = outcome_of(rt.alloc(), PLATE, mesh, &["trial", "2", "0"])?;
    let begin = b"trial 2 0\nobjects 2\nfacets 228\n";
    assert!(rt; done.out.taken().starts_with(begin));
    assert!(rt; done.status == 0 || done.status == 6);
    Ok(())
}
