ghost use Rattle.std.specs.Prelude.{IfOk};
ghost use Rattle.decision_text.specs.DecisionText.{file_of};
ghost use Rattle.plan_text.specs.PlanText.{IsPlanFile};

use super::*;
use cert_text::{Kind, read_tree};
use refinement_loop::Decision;
use std::alloc::Global;
use std::process::Abort;
use std::test::Fail;

// blocks behind the lines of a plan file that has none, for a grid of 90
static WITHOUT_PLAN: [(Kind, &[u8], &[u8]); 3] = [
    (
        Kind::Certificate,
        b"certificate 1\nexcludes 90\nbound 0:1\n",
        b"seqplan 1\nstate none\ngrid 90\ncertificate 1\nexcludes 90\nbound 0:1\n",
    ),
    (
        Kind::OpenBudget,
        b"opentree 1\ntried 90\npending\n",
        b"seqplan 1\nstate undecided budget\ngrid 90\nopentree 1\ntried 90\npending\n",
    ),
    (
        Kind::OpenWide,
        b"opentree 1\ntried 90\nwide 0 2 1,3\npending\n",
        b"seqplan 1\nstate undecided wide\ngrid 90\nopentree 1\ntried 90\nwide 0 2 1,3\npending\n",
    ),
];

// The decision of a whole plate that this block shows.
fn decision_of(alloc: Global, kind: Kind, block: &[u8]) -> Result<Decision, Fail>
    ensures { IfOk result (λ d. IsPlanFile (file_of 90 d)) }
{
    let (head, tree) = read_tree(alloc, block, kind)?;
    match (kind, head.wide) {
        (Kind::Certificate, _) => Ok(Decision::Refuted(tree)),
        (_, Some(note)) => Ok(Decision::Wide(note, tree)),
        (_, None) => Ok(Decision::Spent(tree)),
    }
}

fn see_text(
    rt: &impl Abort,
    alloc: Global,
    kind: Kind,
    block: &[u8],
    text: &[u8],
) -> Result<(), Fail> {
    let printed = decision_text(alloc, 90, decision_of(alloc, kind, block)?)?;
    assert_eq!(rt; printed.as_slice(), text);
    Ok(())
}

#[test]
fn a_plate_without_plan_has_its_text(rt: HostRuntime) -> Result<(), Fail> {
    for (kind, block, text) in &WITHOUT_PLAN {
        see_text(&rt, rt.alloc(), *kind, block, text)?;
    }
    Ok(())
}
