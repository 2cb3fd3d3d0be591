ghost use Rattle.std.specs.Prelude.{◌≤◌, ◌<◌, ◌^◌};

use std::alloc::Global;
use std::test::Fail;
use trial_job::{summary_text, trial_job};

fn told(alloc: Global, objects: u32, seed: u64) -> Result<Vec<u8>, Fail>
    requires some { 1 ≤ objects }
    requires few { objects ≤ 16 }
    requires seed { seed < 2 ^ 32 }
{
    let trial = trial_job(alloc, objects, seed)?;
    let text = summary_text(alloc, objects, seed, &trial)?;
    Ok(text)
}

// One object of one layer; a second one of 18 layers, in 9 bands of which five outlines follow one another; the greatest trial.
#[test]
fn trials_are_told(rt: HostRuntime) -> Result<(), Fail> {
    let alloc = rt.alloc();
    let one = told(alloc, 1, 0)?;
    assert_eq!(rt;
        one.as_slice(),
        b"trial 1 0\nobjects 1\nfacets 12\nzones 1\n".as_slice()
    );
    let two = told(alloc, 2, 0)?;
    assert_eq!(rt;
        two.as_slice(),
        b"trial 2 0\nobjects 2\nfacets 228\nzones 6\n".as_slice()
    );
    let most = told(alloc, 16, 4_294_967_295)?;
    assert_eq!(rt;
        most.as_slice(),
        b"trial 16 4294967295\nobjects 16\nfacets 2376\nzones 69\n".as_slice()
    );
    Ok(())
}
