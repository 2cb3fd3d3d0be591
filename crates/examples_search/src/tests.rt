use crate::jobs::job_of;
use node_looks::{Counts, Looker};
use refinement_loop::{Decision, decide, decide_by};
use seq_model::{Node, Tree};
use seq_num::NoMemory;
use std::alloc::Global;
use std::process::Abort;
use std::test::Fail;

// What is answered, and of a spent budget the nodes of the tree.
#[derive(Clone, Copy, Debug, PartialEq, Eq)]
enum Answer {
    NoJob,
    Found,
    Refuted,
    Spent(usize),
    Wide,
}

const TWO: &[&str] = &["arrange", "p1.toml", "cube.stl", "cube.stl"];

const THREE: &[&str] = &["arrange", "p1.toml", "cube.stl", "cube.stl", "cube.stl"];

const WITH_A_CONE: &[&str] = &["arrange", "p1.toml", "cube.stl", "cube.stl", "cone.stl"];

// The words of a job, an extent and a budget.
type Row = (&'static [&'static str], u32, u64, Answer);

static DECIDED: [Row; 5] = [
    (TWO, 46, 20_000, Answer::Found),
    (TWO, 45, 20_000, Answer::Refuted),
    // both cubes stand in one place, and collide both ways
    (TWO, 100, 1, Answer::Spent(1)),
    (THREE, 100, 200, Answer::Found),
    (WITH_A_CONE, 100, 20_000, Answer::Found),
];

fn told(decision: &Decision) -> Answer {
    match decision {
        Decision::Found(_) => Answer::Found,
        Decision::Refuted(_) => Answer::Refuted,
        Decision::Spent(tree) => Answer::Spent(tree.nodes.len()),
        Decision::Wide(_, _) => Answer::Wide,
    }
}

fn answer_of(alloc: Global, words: &[&str], extent: u32, budget: u64) -> Result<Answer, NoMemory> {
    let Some(job) = job_of(alloc, words)? else {
        return Ok(Answer::NoJob);
    };
    if extent < 1 || extent > job.printer.grid || budget < 1 || budget > 1_000_000 {
        return Ok(Answer::NoJob);
    }
    let decision = decide(alloc, &job, extent, budget)?;
    Ok(told(&decision))
}

fn see_answer(rt: &impl Abort, alloc: Global, row: &Row) -> Result<(), Fail> {
    let (words, extent, budget, expected) = row;
    assert_eq!(rt; answer_of(alloc, words, *extent, *budget), Ok(*expected));
    Ok(())
}

#[test]
fn cubes_and_a_cone_are_decided(rt: HostRuntime) -> Result<(), Fail> {
    for row in &DECIDED {
        see_answer(&rt, rt.alloc(), row)?;
    }
    Ok(())
}

fn is_cycle(node: &Node) -> bool {
    match node {
        Node::Cycle { objects: _ } => true,
        _ => false,
    }
}

// How many nodes had their systems looked at: all but those that a cycle of orders closes.
fn looked_at(tree: &Tree) -> u64 {
    let mut count = 0u64;
    for node in tree.nodes.as_slice() {
        if !is_cycle(node) {
            count = count.saturating_add(1);
        }
    }
    count
}

// Whether the extent is refuted, by one repair for each node whose system was looked at, and by no solve.
fn is_refuted_warm(alloc: Global, words: &[&str], extent: u32) -> Result<bool, NoMemory> {
    let Some(job) = job_of(alloc, words)? else {
        return Ok(false);
    };
    if extent < 1 || extent > job.printer.grid {
        return Ok(false);
    }
    let mut looker = Looker::new(alloc, &job)?;
    let decision = decide_by(alloc, &job, extent, 20_000, &mut looker)?;
    let asked = looker.counts();
    match &decision {
        Decision::Refuted(tree) => Ok(
            asked
                == Counts {
                    repairs: looked_at(tree),
                    solves: 0,
                },
        ),
        _ => Ok(false),
    }
}

// Two cubes as the least search tries them below what it answers; with a cone, cycles of orders close nodes too.
static REFUTED: [(&[&str], u32); 4] = [(TWO, 45), (TWO, 23), (THREE, 45), (WITH_A_CONE, 72)];

#[test]
fn warm_search(rt: HostRuntime) -> Result<(), Fail> {
    for (words, extent) in &REFUTED {
        assert!(rt; is_refuted_warm(rt.alloc(), words, *extent)?);
    }
    Ok(())
}
