use plan_text::PlanRead::{Line, Missing, Trailing};
use plan_text::{PlanFile, PlanRead, State, read_plan, write_plan};
use seq_model::Place;
use seq_model::What::{Extent, Grid, Header, Place as PlaceLine, Scale, State as StateLine};
use std::alloc::{AllocError, Global};

// six lines, of 10, 12, 9, 11, 8 and 12 bytes
static FOUND: &[u8] = b"seqplan 1\nstate found\ngrid 100\nextent 100\nscale 1\nplace 0 1 1\n";

// The place where the lines of a plan end, or why it is refused.
fn place_of(alloc: Global, text: &[u8]) -> Result<usize, PlanRead> {
    Ok(read_plan(alloc, text)?.1)
}

fn is_found(file: &PlanFile) -> bool {
    let places = [Place {
        object: 0,
        x: 1,
        y: 1,
    }];
    file.state == State::Found
        && (file.grid, file.extent, file.plan.scale) == (100, 100, 1)
        && file.plan.places.as_slice() == places.as_slice()
}

// Whether the plan is read with its values, and the same text is written of it.
fn is_written_again(alloc: Global) -> bool {
    let Ok((file, place)) = read_plan(alloc, FOUND) else {
        return false;
    };
    match write_plan(alloc, &file) {
        Ok(text) => place == 62 && is_found(&file) && text.as_slice() == FOUND,
        Err(_) => false,
    }
}

#[test]
fn a_plan_is_read_and_written_again(rt: HostRuntime) {
    assert!(rt; is_written_again(rt.alloc()));
}

#[test]
fn no_prefix_is_a_plan_but_one(rt: HostRuntime) {
    for (len, _) in FOUND.iter().enumerate() {
        let wanted = if len == 50 { Ok(50) } else { Err(Missing) };
        assert!(rt; place_of(rt.alloc(), &FOUND[..len]) == wanted);
    }
}

// plans, and the place where their lines end
static READ: [(&[u8], usize); 8] = [
    (b"seqplan 1\nstate none\ngrid 1\n", 28),
    (b"seqplan 1\nstate none\ngrid 1\nplace 0 1 1", 28),
    (b"seqplan 1\nstate undecided budget\ngrid 1000\n\xff\n", 43),
    (b"seqplan 1\nstate undecided wide\ngrid 7\n", 38),
    (
        b"seqplan 1\nstate least\ngrid 2\nextent 2\nscale 3\nplace 4294967295 -1 1237940039285380274899124223\nplaces\n",
        95,
    ),
    (b"seqplan 1\nstate least\ngrid 2\nextent 1\nscale 1\n", 46),
    (
        b"seqplan 1\nstate open wide\ngrid 2\nextent 1\nscale 1\nplace",
        50,
    ),
    (
        b"seqplan 1\nstate open budget\ngrid 9\nextent 9\nscale 4611686018427387903\nplace 7 0 1\n",
        82,
    ),
];

static REFUSED: [(&[u8], PlanRead); 56] = [
    // the first line
    (b"", Missing),
    (b"seqplan 1", Missing),
    (b"seqplan 2", Missing),
    (b"\n", Line(1, Header)),
    (b"seqplan 2\n", Line(1, Header)),
    (b"Seqplan 1\n", Line(1, Header)),
    (b"seqplan 1\r\n", Line(1, Header)),
    (b"seqplan 1 \n", Line(1, Header)),
    (b" seqplan 1\n", Line(1, Header)),
    // the state
    (b"seqplan 1\n", Missing),
    (b"seqplan 1\nstate found", Missing),
    (b"seqplan 1\n\n", Line(2, StateLine)),
    (b"seqplan 1\nstate lost\n", Line(2, StateLine)),
    (b"seqplan 1\nstate open\n", Line(2, StateLine)),
    (b"seqplan 1\nstate found \n", Line(2, StateLine)),
    (b"seqplan 1\ngrid 1\n", Line(2, StateLine)),
    // the grid
    (b"seqplan 1\nstate none\n", Missing),
    (b"seqplan 1\nstate none\ngrid 100", Missing),
    (b"seqplan 1\nstate none\ngrid\n", Line(3, Grid)),
    (b"seqplan 1\nstate none\ngrid 0\n", Line(3, Grid)),
    (b"seqplan 1\nstate none\ngrid 1001\n", Line(3, Grid)),
    (b"seqplan 1\nstate none\ngrid 01\n", Line(3, Grid)),
    (b"seqplan 1\nstate none\ngrid +1\n", Line(3, Grid)),
    (b"seqplan 1\nstate none\ngrid -1\n", Line(3, Grid)),
    (
        b"seqplan 1\nstate none\ngrid 1267650600228229401496703205376\n",
        Line(3, Grid),
    ),
    // the extent, at most the grid
    (
        b"seqplan 1\nstate least\ngrid 9\nscale 1\n",
        Line(4, Extent),
    ),
    (
        b"seqplan 1\nstate least\ngrid 9\nextent 0\n",
        Line(4, Extent),
    ),
    (
        b"seqplan 1\nstate least\ngrid 9\nextent 10\n",
        Line(4, Extent),
    ),
    (
        b"seqplan 1\nstate least\ngrid 9\nextent 1 2\n",
        Line(4, Extent),
    ),
    // the scale, below 2^62, and the common divisor
    (
        b"seqplan 1\nstate found\ngrid 9\nextent 9\nplace 0 1 1\n",
        Line(5, Scale),
    ),
    (
        b"seqplan 1\nstate found\ngrid 9\nextent 9\nscale 0\n",
        Line(5, Scale),
    ),
    (
        b"seqplan 1\nstate found\ngrid 9\nextent 9\nscale -1\n",
        Line(5, Scale),
    ),
    (
        b"seqplan 1\nstate found\ngrid 9\nextent 9\nscale 4611686018427387904\n",
        Line(5, Scale),
    ),
    (
        b"seqplan 1\nstate found\ngrid 9\nextent 9\nscale 2\n",
        Line(5, Scale),
    ),
    (
        b"seqplan 1\nstate found\ngrid 9\nextent 9\nscale 6\nplace 0 -9 0\nplace 1 3 3\n",
        Line(5, Scale),
    ),
    (
        b"seqplan 1\nstate found\ngrid 9\nextent 9\nscale 2\nplace 0 2 4\nmore\n",
        Line(5, Scale),
    ),
    (
        b"seqplan 1\nstate found\ngrid 9\nextent 9\nscale 2\nplace 0 2 4\nmore",
        Line(5, Scale),
    ),
    (
        b"seqplan 1\nstate open wide\ngrid 9\nextent 9\nscale 2\nplace 0 2 4\nmore",
        Line(5, Scale),
    ),
    (
        b"seqplan 1\nstate found\ngrid 9\nextent 9\nscale 2\nplace 0 2 4\nplace 1",
        Missing,
    ),
    // place lines
    (
        b"seqplan 1\nstate found\ngrid 9\nextent 9\nscale 1\nplace \n",
        Line(6, PlaceLine),
    ),
    (
        b"seqplan 1\nstate found\ngrid 9\nextent 9\nscale 1\nplace 0 -0 1\n",
        Line(6, PlaceLine),
    ),
    (
        b"seqplan 1\nstate found\ngrid 9\nextent 9\nscale 1\nplace 0 1267650600228229401496703205376 1\n",
        Line(6, PlaceLine),
    ),
    (
        b"seqplan 1\nstate found\ngrid 9\nextent 9\nscale 1\nplace 0 1\n",
        Line(6, PlaceLine),
    ),
    (
        b"seqplan 1\nstate found\ngrid 9\nextent 9\nscale 1\nplace 0 1 1 \n",
        Line(6, PlaceLine),
    ),
    (
        b"seqplan 1\nstate found\ngrid 9\nextent 9\nscale 1\nplace  0 1 1\n",
        Line(6, PlaceLine),
    ),
    (
        b"seqplan 1\nstate found\ngrid 9\nextent 9\nscale 1\nplace 0 1.5 1\n",
        Line(6, PlaceLine),
    ),
    (
        b"seqplan 1\nstate found\ngrid 9\nextent 9\nscale 1\nplace -1 1 1\n",
        Line(6, PlaceLine),
    ),
    (
        b"seqplan 1\nstate found\ngrid 9\nextent 9\nscale 1\nplace 4294967296 1 1\n",
        Line(6, PlaceLine),
    ),
    (
        b"seqplan 1\nstate found\ngrid 9\nextent 9\nscale 1\nplace 0 1237940039285380274899124224 1\n",
        Line(6, PlaceLine),
    ),
    (
        b"seqplan 1\nstate found\ngrid 9\nextent 9\nscale 1\nplace 0 1 -1237940039285380274899124224\n",
        Line(6, PlaceLine),
    ),
    (
        b"seqplan 1\nstate open wide\ngrid 9\nextent 9\nscale 1\nplace 0 1 1\nplace 1 x 1\n",
        Line(7, PlaceLine),
    ),
    // behind the lines, where no tree block is due
    (
        b"seqplan 1\nstate found\ngrid 9\nextent 9\nscale 1\nplace 0 1 1\n\n",
        Trailing,
    ),
    (
        b"seqplan 1\nstate found\ngrid 9\nextent 9\nscale 1\nplaces\n",
        Trailing,
    ),
    (
        b"seqplan 1\nstate found\ngrid 9\nextent 9\nscale 1\ncertificate 1\nx",
        Trailing,
    ),
    (
        b"seqplan 1\nstate least\ngrid 9\nextent 1\nscale 1\ncertificate 1\n",
        Trailing,
    ),
    (
        b"seqplan 1\nstate least\ngrid 9\nextent 1\nscale 1\ncertificate 1",
        Missing,
    ),
];

// What follows sixteen place lines, and what is answered.
static BEHIND_SIXTEEN: [(&[u8], Result<usize, PlanRead>); 3] = [
    (b"", Ok(242)),
    (b"place 0 0 0", Err(Missing)),
    (b"place 0 0 0\n", Err(Line(22, PlaceLine))),
];

fn with_sixteen_places(alloc: Global, rest: &[u8]) -> Result<Vec<u8>, AllocError> {
    let mut text = Vec::from_slice(alloc, &FOUND[..50])?;
    for _ in 0..16 {
        text.extend_from_slice(b"place 0 0 0\n")?;
    }
    text.extend_from_slice(rest)?;
    Ok(text)
}

fn behind_sixteen(alloc: Global, rest: &[u8]) -> Result<usize, PlanRead> {
    match with_sixteen_places(alloc, rest) {
        Ok(text) => place_of(alloc, &text),
        Err(_) => Err(PlanRead::NoMemory),
    }
}

#[test]
fn plans_are_read(rt: HostRuntime) {
    for (text, place) in &READ {
        assert!(rt; place_of(rt.alloc(), text) == Ok(*place));
    }
}

#[test]
fn plans_are_refused(rt: HostRuntime) {
    for (text, refusal) in &REFUSED {
        assert!(rt; place_of(rt.alloc(), text) == Err(*refusal));
    }
}

#[test]
fn no_place_line_follows_the_sixteenth(rt: HostRuntime) {
    for (rest, wanted) in &BEHIND_SIXTEEN {
        assert!(rt; behind_sixteen(rt.alloc(), rest) == *wanted);
    }
}
