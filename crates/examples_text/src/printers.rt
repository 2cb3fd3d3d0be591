use printer_text::{Key, Prn, key_text, read_printer};
use seq_model::{Part, Printer, Spot};
use std::alloc::{AllocError, Global};

// What a description is refused for.
#[derive(Clone, Copy, PartialEq, Eq)]
enum Want<'a> {
    Toml,
    Missing(Key, u32),
    Kind(Key, u32),
    FloatLength(Key, u32),
    Number(Key, u32),
    Range(Key, u32),
    OffGrain(Key, u32),
    TooManyParts,
    Unknown(&'a str, u32),
}

// The grain, width, depth, step, margin and grid of a printer.
type Sizes = (i64, i64, i64, i64, i64, u32);

// The name of a part, its lo and hi, and its kept corners.
type Listed<'a> = (&'a str, u32, Option<u32>, &'a [(i64, i64)]);

const TO_GRAIN: &str = "format = 1\n";

const TO_PLATE: &str = "format = 1\ngrain = 1\n";

const TO_STEP: &str = "format = 1\ngrain = 1\nplate = [100, 100]\n";

const TO_MARGIN: &str = "format = 1\ngrain = 1\nplate = [100, 100]\nstep = 10\n";

const TO_GRID: &str = "format = 1\ngrain = 1\nplate = [100, 100]\nstep = 10\nmargin = 1\n";

const TOP: &str = "format = 1\ngrain = 1\nplate = [100, 100]\nstep = 10\nmargin = 1\ngrid = 100\n";

const PART: &str =
    "format = 1\ngrain = 1\nplate = [100, 100]\nstep = 10\nmargin = 1\ngrid = 100\n[[part]]\n";

const TO_FROM: &str =
    "format = 1\ngrain = 1\nplate = [100, 100]\nstep = 10\nmargin = 1\ngrid = 100\n[[part]]\nname = \"a\"\n";

const TO_TO: &str =
    "format = 1\ngrain = 1\nplate = [100, 100]\nstep = 10\nmargin = 1\ngrid = 100\n[[part]]\nname = \"a\"\nfrom = 5\n";

const TO_LOW: &str =
    "format = 1\ngrain = 1\nplate = [100, 100]\nstep = 10\nmargin = 1\ngrid = 100\n[[part]]\nname = \"a\"\nfrom = 5\nbar = \"x\"\n";

const TO_HIGH: &str =
    "format = 1\ngrain = 1\nplate = [100, 100]\nstep = 10\nmargin = 1\ngrid = 100\n[[part]]\nname = \"a\"\nfrom = 5\nbar = \"x\"\nlow = 2\n";

const SECOND: &str =
    "format = 1\ngrain = 1\nplate = [100, 100]\nstep = 10\nmargin = 1\ngrid = 100\n[[part]]\nname = \"a\"\nfrom = 5\ncorners = [[0, 0]]\n[[part]]\n";

const FINE: &str = "format = 1\ngrain = \"0.01\"\n";

const FINE_TO_FROM: &str =
    "format = 1\ngrain = \"0.01\"\nplate = [200, \"0.01\"]\nstep = \"0.01\"\nmargin = 10\ngrid = 1000\n[[part]]\nname = \"a\"\n";

const FINE_TO_TO: &str =
    "format = 1\ngrain = \"0.01\"\nplate = [200, \"0.01\"]\nstep = \"0.01\"\nmargin = 10\ngrid = 1000\n[[part]]\nname = \"a\"\nfrom = 0\n";

// the lines that a description begins with, those that follow, and its refusal
static REFUSED: [(&str, &str, Want); 117] = [
    // the top table, key by key
    ("", "", Want::Missing(Key::Format, 0)),
    ("", "format = \"1\"", Want::Kind(Key::Format, 0)),
    ("", "format = 1.0", Want::Kind(Key::Format, 0)),
    ("", "format = 2", Want::Range(Key::Format, 0)),
    (
        "",
        "format = 9223372036854775807",
        Want::Range(Key::Format, 0),
    ),
    (TO_GRAIN, "", Want::Missing(Key::Grain, 0)),
    (TO_GRAIN, "grain = true", Want::Kind(Key::Grain, 0)),
    (TO_GRAIN, "grain = 1.0", Want::FloatLength(Key::Grain, 0)),
    (TO_GRAIN, "grain = \"1,0\"", Want::Number(Key::Grain, 0)),
    (TO_GRAIN, "grain = 11", Want::Range(Key::Grain, 0)),
    (TO_GRAIN, "grain = \"0.009\"", Want::Range(Key::Grain, 0)),
    (
        TO_GRAIN,
        "grain = -9223372036854775808",
        Want::Range(Key::Grain, 0),
    ),
    (TO_PLATE, "", Want::Missing(Key::Plate, 0)),
    (TO_PLATE, "plate = 100", Want::Kind(Key::Plate, 0)),
    (TO_PLATE, "plate = [100]", Want::Kind(Key::Plate, 0)),
    (
        TO_PLATE,
        "plate = [0.5, 100, 100]",
        Want::Kind(Key::Plate, 0),
    ),
    (TO_PLATE, "plate = [0.5, true]", Want::Kind(Key::Plate, 0)),
    (
        TO_PLATE,
        "plate = [100.0, 0]",
        Want::FloatLength(Key::Plate, 0),
    ),
    (TO_PLATE, "plate = [\"x\", 0]", Want::Number(Key::Plate, 0)),
    (TO_PLATE, "plate = [0, 100.0]", Want::Range(Key::Plate, 0)),
    (TO_PLATE, "plate = [100, 10001]", Want::Range(Key::Plate, 0)),
    (
        TO_PLATE,
        "plate = [\"1.5\", 100.0]",
        Want::OffGrain(Key::Plate, 0),
    ),
    (
        TO_PLATE,
        "plate = [1, 100.0]",
        Want::FloatLength(Key::Plate, 0),
    ),
    (TO_STEP, "", Want::Missing(Key::Step, 0)),
    (TO_STEP, "step = [10]", Want::Kind(Key::Step, 0)),
    (TO_STEP, "step = 0.2", Want::FloatLength(Key::Step, 0)),
    (TO_STEP, "step = \"0.2 \"", Want::Number(Key::Step, 0)),
    (TO_STEP, "step = 101", Want::Range(Key::Step, 0)),
    (TO_STEP, "step = \"0.0094\"", Want::Range(Key::Step, 0)),
    (TO_MARGIN, "", Want::Missing(Key::Margin, 0)),
    (TO_MARGIN, "margin = {}", Want::Kind(Key::Margin, 0)),
    (TO_MARGIN, "margin = 1e0", Want::FloatLength(Key::Margin, 0)),
    (TO_MARGIN, "margin = \"\"", Want::Number(Key::Margin, 0)),
    (TO_MARGIN, "margin = \"0.999\"", Want::Range(Key::Margin, 0)),
    (TO_MARGIN, "margin = 1001", Want::Range(Key::Margin, 0)),
    (
        TO_MARGIN,
        "margin = \"1.0005\"",
        Want::OffGrain(Key::Margin, 0),
    ),
    (TO_GRID, "", Want::Missing(Key::Grid, 0)),
    (TO_GRID, "grid = \"100\"", Want::Kind(Key::Grid, 0)),
    (TO_GRID, "grid = 0", Want::Range(Key::Grid, 0)),
    (TO_GRID, "grid = 1001", Want::Range(Key::Grid, 0)),
    (TOP, "part = 1", Want::Kind(Key::Part, 0)),
    (TOP, "[part]", Want::Kind(Key::Part, 0)),
    (TOP, "part = [{}, 1]", Want::Kind(Key::Part, 0)),
    (
        TOP,
        "part = [{},{},{},{},{},{},{},{},{},{},{},{},{}]",
        Want::TooManyParts,
    ),
    (
        TOP,
        "part = [{},{},{},{},{},{},{},{},{},{},{},{},1]",
        Want::Kind(Key::Part, 0),
    ),
    (TOP, "part = [{}, {}]", Want::Missing(Key::Name, 1)),
    // a listed part, key by key
    (PART, "from = 0.5", Want::Missing(Key::Name, 1)),
    (PART, "name = 1", Want::Kind(Key::Name, 1)),
    (PART, "name = \"\"", Want::Range(Key::Name, 1)),
    (
        PART,
        "name = \"aaaaaaaaaaaaaaaaaaaaaaaaaaaaaaaaaaaaaaaaa\"",
        Want::Range(Key::Name, 1),
    ),
    (PART, "name = \"a b\"", Want::Range(Key::Name, 1)),
    (TO_FROM, "", Want::Missing(Key::From, 1)),
    (TO_FROM, "from = [0]", Want::Kind(Key::From, 1)),
    (TO_FROM, "from = 0.0", Want::FloatLength(Key::From, 1)),
    (TO_FROM, "from = \"a\"", Want::Number(Key::From, 1)),
    (TO_FROM, "from = -1", Want::Range(Key::From, 1)),
    (TO_FROM, "from = 10001", Want::Range(Key::From, 1)),
    (TO_FROM, "from = \"10000.001\"", Want::Number(Key::From, 1)),
    (TO_TO, "to = false", Want::Kind(Key::To, 1)),
    (TO_TO, "to = 6.0", Want::FloatLength(Key::To, 1)),
    (TO_TO, "to = \"6 mm\"", Want::Number(Key::To, 1)),
    (TO_TO, "to = \"4.999\"", Want::Range(Key::To, 1)),
    (TO_TO, "bar = 1", Want::Kind(Key::Bar, 1)),
    (TO_TO, "bar = \"X\"", Want::Range(Key::Bar, 1)),
    (TO_TO, "", Want::Missing(Key::Corners, 1)),
    (TO_TO, "corners = 1", Want::Kind(Key::Corners, 1)),
    (
        TO_TO,
        "corners = [[0.5, 0], [0]]",
        Want::Kind(Key::Corners, 1),
    ),
    (
        TO_TO,
        "corners = [[0.5, 0], [0, 0, 0]]",
        Want::Kind(Key::Corners, 1),
    ),
    (TO_TO, "corners = []", Want::Range(Key::Corners, 1)),
    (
        TO_TO,
        "corners = [[0.5,0],[0,0],[0,0],[0,0],[0,0],[0,0],[0,0],[0,0],[0,0],[0,0],[0,0],[0,0],[0,0],[0,0],[0,0],[0,0],[0,0],[0,0],[0,0],[0,0],[0,0],[0,0],[0,0],[0,0],[0,0],[0,0],[0,0],[0,0],[0,0],[0,0],[0,0],[0,0],[0,0]]",
        Want::Range(Key::Corners, 1),
    ),
    (
        TO_TO,
        "corners = [[0, 0], [0.5, 0]]",
        Want::FloatLength(Key::Corners, 1),
    ),
    (
        TO_TO,
        "corners = [[0, 0], [0, \"-\"]]",
        Want::Number(Key::Corners, 1),
    ),
    (
        TO_TO,
        "corners = [[0, -10001], [0.5, 0]]",
        Want::Range(Key::Corners, 1),
    ),
    (
        TO_TO,
        "corners = [[\"0.5\", 0.5]]",
        Want::OffGrain(Key::Corners, 1),
    ),
    (TO_LOW, "high = 1", Want::Missing(Key::Low, 1)),
    (TO_LOW, "low = []", Want::Kind(Key::Low, 1)),
    (TO_LOW, "low = 0.0", Want::FloatLength(Key::Low, 1)),
    (TO_LOW, "low = \".\"", Want::Number(Key::Low, 1)),
    (TO_LOW, "low = -10001", Want::Range(Key::Low, 1)),
    (TO_LOW, "low = \"0.5\"", Want::OffGrain(Key::Low, 1)),
    (TO_HIGH, "", Want::Missing(Key::High, 1)),
    (TO_HIGH, "high = \"a\"", Want::Number(Key::High, 1)),
    (TO_HIGH, "high = 3.0", Want::FloatLength(Key::High, 1)),
    (TO_HIGH, "high = true", Want::Kind(Key::High, 1)),
    (TO_HIGH, "high = \"1.999\"", Want::Range(Key::High, 1)),
    (TO_HIGH, "high = \"2.5\"", Want::OffGrain(Key::High, 1)),
    // the second part
    (SECOND, "", Want::Missing(Key::Name, 2)),
    (
        SECOND,
        "name = \"b\"\nfrom = 0.0",
        Want::FloatLength(Key::From, 2),
    ),
    // limits, one µm or one grain of 10 µm beyond them
    ("", "format = 0", Want::Range(Key::Format, 0)),
    (TO_GRAIN, "grain = \"10.001\"", Want::Range(Key::Grain, 0)),
    (TO_STEP, "step = \"100.001\"", Want::Range(Key::Step, 0)),
    (TO_GRID, "grid = -1", Want::Range(Key::Grid, 0)),
    (TO_FROM, "from = \"-0.001\"", Want::Range(Key::From, 1)),
    (TO_TO, "to = 10001", Want::Range(Key::To, 1)),
    (
        FINE,
        "plate = [\"200.01\", 0.0]",
        Want::Range(Key::Plate, 0),
    ),
    (
        FINE,
        "plate = [200, \"200.001\"]",
        Want::Range(Key::Plate, 0),
    ),
    (FINE, "plate = [200, \"0.005\"]", Want::Range(Key::Plate, 0)),
    (
        FINE,
        "plate = [200, 200]\nstep = 1\nmargin = \"10.01\"",
        Want::Range(Key::Margin, 0),
    ),
    (
        FINE,
        "plate = [200, 200]\nstep = 1\nmargin = \"0.009\"",
        Want::Range(Key::Margin, 0),
    ),
    (
        FINE_TO_TO,
        "corners = [[\"1000.01\", 0.0]]",
        Want::Range(Key::Corners, 1),
    ),
    (
        FINE_TO_TO,
        "corners = [[1000, \"-1000.001\"]]",
        Want::Range(Key::Corners, 1),
    ),
    (
        FINE_TO_TO,
        "bar = \"x\"\nlow = \"-1000.01\"",
        Want::Range(Key::Low, 1),
    ),
    (
        FINE_TO_TO,
        "bar = \"x\"\nlow = \"1000.01\"",
        Want::Range(Key::Low, 1),
    ),
    (
        FINE_TO_TO,
        "bar = \"y\"\nlow = 1000\nhigh = \"1000.01\"",
        Want::Range(Key::High, 1),
    ),
    (
        FINE_TO_TO,
        "bar = \"y\"\nlow = 1000\nhigh = \"999.99\"",
        Want::Range(Key::High, 1),
    ),
    // no TOML
    ("", "format = ", Want::Toml),
    ("", "format = 9223372036854775808", Want::Toml),
    ("", "format = 1\nformat = 1", Want::Toml),
    // the first other key, with the number of its table
    (TOP, "zz = 1\nab = 2\n", Want::Unknown("ab", 0)),
    (TOP, "obstacle = []\n", Want::Unknown("obstacle", 0)),
    (TOP, "Grid = 1\npart = [{}]\n", Want::Unknown("Grid", 0)),
    (TOP, "name = \"a\"\n", Want::Unknown("name", 0)),
    (
        TO_TO,
        "bar = \"x\"\ncorners = [[0, 0]]\nlow = 0\nhigh = 1\n",
        Want::Unknown("corners", 1),
    ),
    (
        TO_TO,
        "corners = [[0, 0]]\nlow = 0\nhigh = 1\n",
        Want::Unknown("high", 1),
    ),
    (
        TO_TO,
        "corners = [[0, 0]]\nlow = 0\n",
        Want::Unknown("low", 1),
    ),
    (
        TO_TO,
        "corners = [[0, 0]]\nfroM = 0\nTo = 9\n",
        Want::Unknown("To", 1),
    ),
    (
        SECOND,
        "name = \"b\"\nfrom = 0\ncorners = [[0, 0]]\ngrain = 1\n",
        Want::Unknown("grain", 2),
    ),
];

// the same, and the sizes of the printer
static SIZES: [(&str, &str, Sizes); 6] = [
    (TOP, "", (1000, 100, 100, 10000, 1, 100)),
    (
        TO_STEP,
        "step = \"0.2\"\nmargin = 1000\ngrid = 1\n",
        (1000, 100, 100, 200, 1000, 1),
    ),
    (
        TO_GRAIN,
        "grain = \"0.01\"\nplate = [\"0.01\", 200]\nstep = 100\nmargin = \"9.9996\"\ngrid = 1000\n",
        (10, 1, 20000, 100000, 1000, 1000),
    ),
    (
        TO_GRAIN,
        "grain = 10\nplate = [10000, 10]\nstep = \"0.0095\"\nmargin = 10\ngrid = 7\npart = []\n",
        (10000, 1000, 1, 10, 1, 7),
    ),
    (
        FINE,
        "plate = [\"200\", 200]\nstep = \"0.01\"\nmargin = 10\ngrid = 1\n",
        (10, 20000, 20000, 10, 1000, 1),
    ),
    (
        FINE,
        "plate = [200, \"0.01\"]\nstep = \"99.9995\"\nmargin = \"0.01\"\ngrid = 1\n",
        (10, 20000, 1, 100000, 1, 1),
    ),
];

// the same, with lo, hi and the kept corners of the first listed part
static PARTS: [(&str, &str, u32, Option<u32>, &[(i64, i64)]); 12] = [
    (
        TO_TO,
        "to = 11\ncorners = [[0, 0]]\n",
        0,
        Some(2),
        &[(0, 0)],
    ),
    (
        TO_TO,
        "to = 5\ncorners = [[1, 1], [0, 0], [2, 2], [0, 0]]\n",
        0,
        Some(1),
        &[(0, 0), (2, 2)],
    ),
    (
        TO_TO,
        "corners = [[0, 0], [2, 0], [1, 0], [\"2.0\", 2], [0, \"2\"], [1, 1]]\n",
        0,
        None,
        &[(0, 0), (2, 0), (2, 2), (0, 2)],
    ),
    (
        TO_TO,
        "bar = \"y\"\nlow = -3\nhigh = 4\n",
        0,
        None,
        &[(-3, -101), (4, -101), (4, 101), (-3, 101)],
    ),
    (
        TO_TO,
        "bar = \"x\"\nlow = 4\nhigh = 4\n",
        0,
        None,
        &[(-101, 4), (101, 4)],
    ),
    (
        TO_FROM,
        "from = 20\nto = \"20.001\"\nbar = \"x\"\nlow = -10\nhigh = 10\n",
        2,
        Some(3),
        &[(-101, -10), (101, -10), (101, 10), (-101, 10)],
    ),
    (
        FINE_TO_TO,
        "corners = [[\"1000\", -1000], [-1000, \"1000\"]]\n",
        0,
        None,
        &[(-100000, 100000), (100000, -100000)],
    ),
    (
        FINE_TO_TO,
        "bar = \"x\"\nlow = -1000\nhigh = 1000\n",
        0,
        None,
        &[
            (-20001, -100000),
            (20001, -100000),
            (20001, 100000),
            (-20001, 100000),
        ],
    ),
    (
        FINE_TO_TO,
        "bar = \"y\"\nlow = 1000\nhigh = 1000\n",
        0,
        None,
        &[(100000, -2), (100000, 2)],
    ),
    (
        FINE_TO_FROM,
        "from = 10000\nto = 10000\ncorners = [[0, 0]]\n",
        1_000_000,
        Some(1_000_000),
        &[(0, 0)],
    ),
    (
        TO_FROM,
        "from = 10000\nto = \"10000\"\ncorners = [[0, 0]]\n",
        1000,
        Some(1000),
        &[(0, 0)],
    ),
    (
        TO_TO,
        "corners = [[0, 0], [0, 0], [0, 0], [0, 0], [0, 0], [0, 0], [0, 0], [0, 0], [0, 0], [0, 0], [0, 0], [0, 0], [0, 0], [0, 0], [0, 0], [0, 0], [0, 0], [0, 0], [0, 0], [0, 0], [0, 0], [0, 0], [0, 0], [0, 0], [0, 0], [0, 0], [0, 0], [0, 0], [0, 0], [0, 0], [0, 0], [1, 0]]\n",
        0,
        None,
        &[(0, 0), (1, 0)],
    ),
];

static P1: &str =
    "format = 1\ngrain = 1\nplate = [100, 100]\nstep = 10\nmargin = 1\ngrid = 100\n\n[[part]]\nname = \"nozzle\"\nfrom = 0\ncorners = [[-2, -2], [2, -2], [2, 2], [-2, 2]]\n\n[[part]]\nname = \"gantry\"\nfrom = 20\nbar = \"x\"\nlow = -10\nhigh = 10\n";

static P1_PARTS: [Listed; 3] = [
    ("tip", 0, Some(0), &[(0, 0)]),
    ("nozzle", 0, None, &[(-2, -2), (2, -2), (2, 2), (-2, 2)]),
    (
        "gantry",
        2,
        None,
        &[(-101, -10), (101, -10), (101, 10), (-101, 10)],
    ),
];

fn wanted(refusal: Option<&Prn>) -> Option<Want<'_>> {
    match refusal? {
        Prn::Toml => Some(Want::Toml),
        Prn::Missing(key, number) => Some(Want::Missing(*key, *number)),
        Prn::Kind(key, number) => Some(Want::Kind(*key, *number)),
        Prn::FloatLength(key, number) => Some(Want::FloatLength(*key, *number)),
        Prn::Number(key, number) => Some(Want::Number(*key, *number)),
        Prn::Range(key, number) => Some(Want::Range(*key, *number)),
        Prn::OffGrain(key, number) => Some(Want::OffGrain(*key, *number)),
        Prn::TooManyParts => Some(Want::TooManyParts),
        Prn::Unknown(text, number) => Some(Want::Unknown(text.as_str(), *number)),
        Prn::NoMemory => None,
    }
}

fn read(alloc: Global, first: &str, rest: &[u8]) -> Result<Printer, Prn> {
    let Ok(mut text) = Vec::from_slice(alloc, first.as_bytes()) else {
        return Err(Prn::NoMemory);
    };
    match text.extend_from_slice(rest) {
        Ok(()) => read_printer(alloc, &text),
        Err(_) => Err(Prn::NoMemory),
    }
}

fn is_refused(alloc: Global, first: &str, rest: &[u8], want: Want) -> bool {
    let refusal = read(alloc, first, rest).err();
    wanted(refusal.as_ref()) == Some(want)
}

#[test]
fn descriptions_are_refused_at_their_first_wrong_key(rt: HostRuntime) {
    for (first, rest, want) in &REFUSED {
        assert!(rt; is_refused(rt.alloc(), first, rest.as_bytes(), *want));
    }
    assert!(rt; is_refused(rt.alloc(), "format = 1 #", b"\xff", Want::Toml));
    assert_eq!(rt; key_text(Key::Corners), "corners");
}

// The sizes of a printer, and how many parts it has.
fn sizes(alloc: Global, first: &str, rest: &str) -> Option<(Sizes, usize)> {
    let p = read(alloc, first, rest.as_bytes()).ok()?;
    let sizes = (p.grain, p.width, p.depth, p.step, p.margin, p.grid);
    Some((sizes, p.parts.len()))
}

#[test]
fn printers_have_their_sizes(rt: HostRuntime) {
    for (first, rest, want) in &SIZES {
        assert!(rt; sizes(rt.alloc(), first, rest) == Some((*want, 1)));
    }
}

fn has_corners(part: &Part, corners: &[(i64, i64)]) -> bool {
    let kept = part.corners.as_slice();
    if kept.len() != corners.len() {
        return false;
    }
    for (spot, (x, y)) in kept.iter().zip(corners) {
        if *spot != (Spot { x: *x, y: *y }) {
            return false;
        }
    }
    true
}

fn is_part(part: &Part, want: &Listed) -> bool {
    part.name.as_str() == want.0
        && (part.lo, part.hi) == (want.1, want.2)
        && has_corners(part, want.3)
}

// Whether a printer has so many parts, and this one at its place.
fn has_part(alloc: Global, first: &str, rest: &str, count: usize, k: usize, want: &Listed) -> bool {
    match read(alloc, first, rest.as_bytes()) {
        Ok(p) => p.parts.len() == count && k < count && is_part(&p.parts.as_slice()[k], want),
        Err(_) => false,
    }
}

#[test]
fn printers_have_their_parts(rt: HostRuntime) {
    for (first, rest, _) in &SIZES {
        assert!(rt; has_part(rt.alloc(), first, rest, 1, 0, &P1_PARTS[0]));
    }
    for (first, rest, lo, hi, corners) in &PARTS {
        assert!(rt; has_part(rt.alloc(), first, rest, 2, 1, &("a", *lo, *hi, *corners)));
    }
    for (k, part) in P1_PARTS.iter().enumerate() {
        assert!(rt; has_part(rt.alloc(), P1, "", 3, k, part));
    }
}

// Names of 40 bytes, which together have each byte that a name may have.
static LONGEST: [&str; 2] = [
    "abcdefghijklmnopqrstuvwxyz_0123456789-AZ",
    "ABCDEFGHIJKLMNOPQRSTUVWXYZ-9876543210_az",
];

// As many parts as there may be, all of this name.
fn with_twelve_parts(alloc: Global, name: &str) -> Result<String, AllocError> {
    let mut text = String::from_str(alloc, TOP)?;
    for _ in 0..12 {
        text.push_str("[[part]]\nname = \"")?;
        text.push_str(name)?;
        text.push_str("\"\nfrom = 0\ncorners = [[0, 0]]\n")?;
    }
    Ok(text)
}

fn have_name(parts: &[Part], name: &str) -> bool {
    for part in parts {
        if part.name.as_str() != name {
            return false;
        }
    }
    true
}

fn are_twelve(alloc: Global, name: &str) -> bool {
    let Ok(text) = with_twelve_parts(alloc, name) else {
        return false;
    };
    match read_printer(alloc, text.as_bytes()) {
        Ok(p) => p.parts.len() == 13 && have_name(&p.parts.as_slice()[1..], name),
        Err(_) => false,
    }
}

#[test]
fn twelve_parts_with_names_of_forty_bytes_are_read(rt: HostRuntime) {
    for name in &LONGEST {
        assert!(rt; are_twelve(rt.alloc(), name));
    }
}
