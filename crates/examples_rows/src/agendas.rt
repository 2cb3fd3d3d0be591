use search_agenda::Agenda;
use seq_model::Choice;
use std::alloc::AllocError;
use std::test::Fail;

// The next node and the length of its path, and no others behind the last.
fn next(agenda: &mut Agenda) -> Result<(u32, usize), AllocError> {
    match agenda.pop()? {
        Some(number) => Ok((number, agenda.path().len())),
        None => Ok((99, 99)),
    }
}

// The root, then its second child, which is to be visited first, the one below it, the first child, and no other.
fn visited(agenda: &mut Agenda) -> Result<[(u32, usize); 5], AllocError> {
    let root = next(agenda)?;
    let choices = [Choice::Before { i: 0, j: 1 }, Choice::Before { i: 1, j: 0 }];
    agenda.push_all(1, &choices, &[1, 0])?;
    let first = next(agenda)?;
    agenda.push(3, Choice::Before { i: 1, j: 2 })?;
    let below = next(agenda)?;
    let second = next(agenda)?;
    Ok([root, first, below, second, next(agenda)?])
}

#[test]
fn children_come_in_the_order_of_their_visits(rt: HostRuntime) -> Result<(), Fail> {
    let mut agenda = Agenda::new(rt.alloc())?;
    let nodes = visited(&mut agenda)?;
    assert!(rt; nodes == [(0, 0), (2, 1), (3, 2), (1, 1), (99, 99)]);
    Ok(())
}
