use super::*;
use std::test::Fail;

// texts, and what `whole` reads at their front
static WHOLE: [(&[u8], Option<(i128, &[u8])>); 7] = [
    (b"-20 0\n", Some((-20, b" 0\n"))),
    (b"7", Some((7, b""))),
    (b"0:1", Some((0, b":1"))),
    (b"00 ", None),
    (b"-0", None),
    (b"+1", None),
    (b" 1", None),
];

// lines, and what is read of them with the keyword `grid ` and 300 as the most
static LINES: [(&[u8], Option<(u64, &[u8])>); 9] = [
    (b"grid 1\n", Some((1, b""))),
    (b"grid 300\nextent 46\n", Some((300, b"extent 46\n"))),
    (b"grid 301\n", None),
    (b"grid 0\n", None),
    (b"grid -1\n", None),
    (b"grid 07\n", None),
    (b"grid 7", None),
    (b"grid 7 \n", None),
    (b"Grid 7\n", None),
];

#[test]
fn numbers_are_read_at_the_front(rt: HostRuntime) {
    for (text, wanted) in &WHOLE {
        assert_eq!(rt; whole(text), *wanted);
    }
}

#[test]
fn lines_are_read_at_the_front(rt: HostRuntime) {
    for (text, wanted) in &LINES {
        assert_eq!(rt; number_line(text, b"grid ", 300), *wanted);
    }
}

#[test]
fn what_is_appended_is_read_again(rt: HostRuntime) -> Result<(), Fail> {
    let mut text = Vec::from_slice(rt.alloc(), b"seqplan 1\n")?;
    put_number(&mut text, b"place ", -28)?;
    put_line(&mut text, b" ", 52)?;
    assert_eq!(rt; text.as_slice(), b"seqplan 1\nplace -28 52\n".as_slice());
    let rest = literal(&text, b"seqplan 1\nplace ").ok_or("no place")?;
    assert_eq!(rt; whole(rest), Some((-28, b" 52\n".as_slice())));
    assert_eq!(rt;
        (has_line_end(rest), has_line_end(b"place -28\r")),
        (true, false)
    );
    Ok(())
}
