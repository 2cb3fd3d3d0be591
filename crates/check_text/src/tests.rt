use super::*;
use std::process::Abort;
use std::test::Fail;

static LINES: [(Judgement, &[u8]); 7] = [
    (Judgement::Passes(45), b"check passes 45\n"),
    (Judgement::Passes(0), b"check passes 0\n"),
    (Judgement::Fails(Fault::State), b"check fails state\n"),
    (Judgement::Fails(Fault::Grid), b"check fails grid\n"),
    (Judgement::Fails(Fault::Plan), b"check fails plan\n"),
    (Judgement::Fails(Fault::Excludes), b"check fails excludes\n"),
    (
        Judgement::Fails(Fault::Node(18446744073709551615, Rule::Unordered)),
        b"check fails node 18446744073709551615 unordered\n",
    ),
];

fn see_line(rt: &impl Abort, alloc: Global, judgement: Judgement, line: &[u8]) -> Result<(), Fail> {
    let text = check_text(alloc, judgement)?;
    assert_eq!(rt; text.as_slice(), line);
    Ok(())
}

#[test]
fn each_judgement_has_its_line(rt: HostRuntime) -> Result<(), Fail> {
    for (judgement, line) in &LINES {
        see_line(&rt, rt.alloc(), *judgement, line)?;
    }
    Ok(())
}
