use cert_checker::{Checked, Rule, check};
use cert_text::{Kind, read_tree};
use examples_model::jobs::two_cubes;
use seq_model::Job;
use seq_num::NoMemory;
use std::alloc::Global;
use std::test::Fail;

// The text of a certificate, and what the check at the extent that it excludes says.
type Row = (&'static [u8], Checked);

static CHECKED: [Row; 27] = [
    (
        b"certificate 1\nexcludes 45\norder 0 1\nside 0 0 1 0 1 4\nbound 2:1 4:1\nbound 3:1 4:1\nbound 0:1 4:1\nbound 1:1 4:1\nside 1 0 1 0 0 4\nbound 0:1 4:1\nbound 1:1 4:1\nbound 2:1 4:1\nbound 3:1 4:1\n",
        Checked::Passes,
    ),
    (
        b"certificate 1\nexcludes 46\norder 0 1\nside 0 0 1 0 1 4\nbound 2:1 4:1\nbound 3:1 4:1\nbound 0:1 4:1\nbound 1:1 4:1\nside 1 0 1 0 0 4\nbound 0:1 4:1\nbound 1:1 4:1\nbound 2:1 4:1\nbound 3:1 4:1\n",
        Checked::Fails(2, Rule::Constant),
    ),
    // the coefficient of the later cube's x is then 1
    (
        b"certificate 1\nexcludes 45\norder 0 1\nside 0 0 1 0 1 4\nbound 2:0 4:1\nbound 3:1 4:1\nbound 0:1 4:1\nbound 1:1 4:1\nside 1 0 1 0 0 4\nbound 0:1 4:1\nbound 1:1 4:1\nbound 2:1 4:1\nbound 3:1 4:1\n",
        Checked::Fails(2, Rule::Sum),
    ),
    // of two nodes that break a rule the first is named
    (
        b"certificate 1\nexcludes 45\norder 0 1\nside 0 0 1 0 1 4\nbound 2:0 4:1\nbound 3:1 4:1\nbound 0:0 4:1\nbound 1:1 4:1\nside 1 0 1 0 0 4\nbound 0:1 4:1\nbound 1:1 4:1\nbound 2:1 4:1\nbound 3:1 4:1\n",
        Checked::Fails(2, Rule::Sum),
    ),
    // its coefficients are low, its constants add up to 23
    (
        b"certificate 1\nexcludes 45\norder 0 1\nside 0 0 1 0 1 4\nbound 2:1 4:1\nbound 3:1\nbound 0:1 4:1\nbound 1:1 4:1\nside 1 0 1 0 0 4\nbound 0:1 4:1\nbound 1:1 4:1\nbound 2:1 4:1\nbound 3:1 4:1\n",
        Checked::Fails(3, Rule::Constant),
    ),
    // row 4 is the side above it, and there is no row 5
    (
        b"certificate 1\nexcludes 45\norder 0 1\nside 0 0 1 0 1 4\nbound 2:1 4:1\nbound 3:1 4:1\nbound 0:1 4:1\nbound 1:1 5:1\nside 1 0 1 0 0 4\nbound 0:1 4:1\nbound 1:1 4:1\nbound 2:1 4:1\nbound 3:1 4:1\n",
        Checked::Fails(5, Rule::Row),
    ),
    // at the root there are rows 0 to 3
    (
        b"certificate 1\nexcludes 21\nbound 0:1 4:0\n",
        Checked::Fails(0, Rule::Row),
    ),
    // a cube needs 22
    (b"certificate 1\nexcludes 21\nbound 0:1\n", Checked::Passes),
    (
        b"certificate 1\nexcludes 22\nbound 0:1\n",
        Checked::Fails(0, Rule::Constant),
    ),
    (
        b"certificate 1\nexcludes 45\npending\n",
        Checked::Fails(0, Rule::Pending),
    ),
    (
        b"certificate 1\nexcludes 45\norder 0 1\nside 0 0 1 0 1 4\nbound 2:1 4:1\nbound 3:1 4:1\npending\nbound 1:1 4:1\nside 1 0 1 0 0 4\nbound 0:1 4:1\nbound 1:1 4:1\nbound 2:1 4:1\nbound 3:1 4:1\n",
        Checked::Fails(4, Rule::Pending),
    ),
    (
        b"certificate 1\nexcludes 21\norder 1 0\nbound 0:1\nbound 0:1\n",
        Checked::Fails(0, Rule::Objects),
    ),
    (
        b"certificate 1\nexcludes 21\norder 1 1\nbound 0:1\nbound 0:1\n",
        Checked::Fails(0, Rule::Objects),
    ),
    (
        b"certificate 1\nexcludes 21\norder 0 2\nbound 0:1\nbound 0:1\n",
        Checked::Fails(0, Rule::Objects),
    ),
    // the gantry passes above both, and so the order isn't asked for
    (
        b"certificate 1\nexcludes 21\nside 0 0 2 0 1 1\nbound 0:1\n",
        Checked::Fails(0, Rule::Contact),
    ),
    (
        b"certificate 1\nexcludes 21\nside 0 0 1 1 1 1\nbound 0:1\n",
        Checked::Fails(0, Rule::Contact),
    ),
    (
        b"certificate 1\nexcludes 21\nside 0 0 1 0 0 1\nbound 0:1\n",
        Checked::Fails(0, Rule::Contact),
    ),
    (
        b"certificate 1\nexcludes 21\nside 0 0 1 0 1 4\nbound 0:1\nbound 0:1\nbound 0:1\nbound 0:1\n",
        Checked::Fails(0, Rule::Unordered),
    ),
    (
        b"certificate 1\nexcludes 21\norder 0 1\nside 1 0 1 0 0 4\nbound 0:1\nbound 0:1\nbound 0:1\nbound 0:1\nbound 0:1\n",
        Checked::Fails(1, Rule::Unordered),
    ),
    (
        b"certificate 1\nexcludes 21\norder 0 1\nside 0 0 1 0 1 3\nbound 0:1\nbound 0:1\nbound 0:1\nbound 0:1\n",
        Checked::Fails(1, Rule::Children),
    ),
    (
        b"certificate 1\nexcludes 21\norder 0 1\nside 0 0 1 0 1 5\nbound 0:1\nbound 0:1\nbound 0:1\nbound 0:1\nbound 0:1\nbound 0:1\n",
        Checked::Fails(1, Rule::Children),
    ),
    // nothing behind a node is looked at
    (
        b"certificate 1\nexcludes 21\norder 0 1\nside 0 0 1 0 1 5\nbound 0:1\nbound 0:1\nbound 0:1\nbound 0:1\nbound 0:1\npending\n",
        Checked::Fails(1, Rule::Children),
    ),
    // the same order twice, and then the other way round
    (
        b"certificate 1\nexcludes 21\norder 0 1\norder 0 1\nbound 0:1\ncycle 0 1\nbound 0:1\n",
        Checked::Passes,
    ),
    (
        b"certificate 1\nexcludes 21\norder 0 1\norder 0 1\nbound 0:1\ncycle 1 0 1 0\nbound 0:1\n",
        Checked::Passes,
    ),
    // the second cube isn't before the first
    (
        b"certificate 1\nexcludes 21\norder 0 1\ncycle 0 1\nbound 0:1\n",
        Checked::Fails(1, Rule::Cycle),
    ),
    (
        b"certificate 1\nexcludes 21\norder 0 1\nbound 0:1\ncycle 0\n",
        Checked::Fails(2, Rule::Cycle),
    ),
    (
        b"certificate 1\nexcludes 21\ncycle 17 18\n",
        Checked::Fails(0, Rule::Cycle),
    ),
];

// What the check says of a text; none where it isn't read.
fn checked(alloc: Global, job: &Job, text: &[u8]) -> Result<Option<Checked>, NoMemory> {
    let Ok((head, tree)) = read_tree(alloc, text, Kind::Certificate) else {
        return Ok(None);
    };
    if head.extent > job.printer.grid {
        return Ok(None);
    }
    Ok(Some(check(alloc, job, head.extent, &tree)?))
}

#[test]
fn certificates_of_two_cubes_are_checked(rt: HostRuntime) -> Result<(), Fail> {
    let alloc = rt.alloc();
    let job = two_cubes(alloc)?;
    for (text, want) in &CHECKED {
        assert_eq!(rt; checked(alloc, &job, text)?, Some(*want));
    }
    Ok(())
}
