use owned_lists::{Items, Text};
use seq_words::{Command, Opt, Words, read};
use std::alloc::{AllocError, Global};

// A command with its files: the printer, then the plan where it has one, and the meshes.
#[derive(Clone, Copy)]
enum Want {
    Arrange(bool, bool, u64, &'static [&'static str]),
    Check(&'static [&'static str]),
    Audit(&'static [&'static str]),
    Slices(&'static [&'static str]),
    Trial(u32, u64),
}

// A line of words, and the command that it spells: whether it is for the least extent, whether it is strict, and its budget.
static ACCEPTED: [(&str, Want); 20] = [
    (
        "arrange p.toml a.stl",
        Want::Arrange(false, false, 20_000, &["p.toml", "a.stl"]),
    ),
    (
        "arrange --least p.toml a.stl b.stl",
        Want::Arrange(true, false, 20_000, &["p.toml", "a.stl", "b.stl"]),
    ),
    (
        "arrange p.toml --strict a.stl --least b.stl",
        Want::Arrange(true, true, 20_000, &["p.toml", "a.stl", "b.stl"]),
    ),
    (
        "arrange p.toml a.stl --budget 5",
        Want::Arrange(false, false, 5, &["p.toml", "a.stl"]),
    ),
    (
        "arrange --budget=5 p.toml a.stl",
        Want::Arrange(false, false, 5, &["p.toml", "a.stl"]),
    ),
    (
        "arrange --strict --budget 1000000 p.toml a.stl",
        Want::Arrange(false, true, 1_000_000, &["p.toml", "a.stl"]),
    ),
    (
        "arrange --budget 0000000007 p.toml a.stl",
        Want::Arrange(false, false, 7, &["p.toml", "a.stl"]),
    ),
    (
        "arrange p.toml a.stl a.stl",
        Want::Arrange(false, false, 20_000, &["p.toml", "a.stl", "a.stl"]),
    ),
    (
        "arrange -- p.toml --least",
        Want::Arrange(false, false, 20_000, &["p.toml", "--least"]),
    ),
    (
        "arrange p.toml -- --help --budget",
        Want::Arrange(false, false, 20_000, &["p.toml", "--help", "--budget"]),
    ),
    (
        "arrange - -",
        Want::Arrange(false, false, 20_000, &["-", "-"]),
    ),
    (
        "check p.toml plan a.stl",
        Want::Check(&["p.toml", "plan", "a.stl"]),
    ),
    (
        "check p.toml plan a.stl b.stl",
        Want::Check(&["p.toml", "plan", "a.stl", "b.stl"]),
    ),
    (
        "check 1 2 3 4 5 6 7 8 9 10 11 12 13 14 15 16 17 18",
        Want::Check(&[
            "1", "2", "3", "4", "5", "6", "7", "8", "9", "10", "11", "12", "13", "14", "15", "16",
            "17", "18",
        ]),
    ),
    (
        "audit p.toml plan a.stl b.stl",
        Want::Audit(&["p.toml", "plan", "a.stl", "b.stl"]),
    ),
    (
        "slices p1.toml cube.stl",
        Want::Slices(&["p1.toml", "cube.stl"]),
    ),
    (
        "slices -- --help arrange",
        Want::Slices(&["--help", "arrange"]),
    ),
    ("trial 1 0", Want::Trial(1, 0)),
    ("trial 16 4294967295", Want::Trial(16, 4_294_967_295)),
    ("trial 01 0000000000", Want::Trial(1, 0)),
];

// A line of words, and why it is refused.
static REFUSED: [(&str, Words); 36] = [
    ("", Words::Unknown),
    ("arrang p.toml a.stl", Words::Unknown),
    ("--help", Words::Unknown),
    ("arrange", Words::Usage),
    ("arrange p.toml", Words::Usage),
    ("arrange --help p.toml a.stl", Words::Usage),
    ("arrange p.toml a.stl -h", Words::Usage),
    ("arrange --least p.toml a.stl --least", Words::Usage),
    ("arrange --budget 5 --budget=5 p.toml a.stl", Words::Usage),
    ("arrange p.toml a.stl --budget", Words::Usage),
    ("arrange --budget -5 p.toml a.stl", Words::Usage),
    ("arrange --budget -- p.toml a.stl", Words::Usage),
    ("arrange --least=yes p.toml a.stl", Words::Usage),
    ("arrange --leas p.toml a.stl", Words::Usage),
    (
        "arrange --budget 0 p.toml a.stl",
        Words::BadNumber(Opt::Budget),
    ),
    (
        "arrange --budget 1000001 p.toml a.stl",
        Words::BadNumber(Opt::Budget),
    ),
    (
        "arrange --budget=00000000001 p.toml a.stl",
        Words::BadNumber(Opt::Budget),
    ),
    (
        "arrange --budget= p.toml a.stl",
        Words::BadNumber(Opt::Budget),
    ),
    (
        "arrange --budget=-5 p.toml a.stl",
        Words::BadNumber(Opt::Budget),
    ),
    (
        "arrange --budget +5 p.toml a.stl",
        Words::BadNumber(Opt::Budget),
    ),
    ("check p.toml plan", Words::Usage),
    ("check p.toml plan a.stl --strict", Words::Usage),
    ("audit p.toml", Words::Usage),
    ("slices p.toml", Words::Usage),
    ("slices p.toml a.stl b.stl", Words::Usage),
    ("trial 1", Words::Usage),
    ("trial 1 -1", Words::Usage),
    ("trial 0 0", Words::BadNumber(Opt::K)),
    ("trial 17 x", Words::BadNumber(Opt::K)),
    ("trial  0", Words::BadNumber(Opt::K)),
    ("trial 1 4294967296", Words::BadNumber(Opt::N)),
    ("trial -- 1 -1", Words::BadNumber(Opt::N)),
    // a seventeenth mesh
    (
        "arrange p 1 2 3 4 5 6 7 8 9 10 11 12 13 14 15 16 17",
        Words::TooMany,
    ),
    (
        "arrange --budget 0 p 1 2 3 4 5 6 7 8 9 10 11 12 13 14 15 16 17",
        Words::BadNumber(Opt::Budget),
    ),
    (
        "check p q 1 2 3 4 5 6 7 8 9 10 11 12 13 14 15 16 17",
        Words::TooMany,
    ),
    (
        "audit p q 1 2 3 4 5 6 7 8 9 10 11 12 13 14 15 16 17",
        Words::TooMany,
    ),
];

fn words_of(alloc: Global, line: &str) -> Result<Vec<String>, AllocError> {
    let mut words = Vec::new(alloc);
    for word in line.split(' ') {
        words.push(String::from_str(alloc, word)?)?;
    }
    Ok(words)
}

fn command_of(alloc: Global, line: &str) -> Result<Command, Words> {
    match words_of(alloc, line) {
        Ok(words) => read(alloc, &words),
        Err(_) => Err(Words::NoMemory),
    }
}

fn are_names(files: &[Text], names: &[&str]) -> bool {
    if files.len() != names.len() {
        return false;
    }
    for (file, name) in files.iter().zip(names) {
        if file.as_str() != *name {
            return false;
        }
    }
    true
}

// Whether these are the first and the other names.
fn are_files(first: &Text, others: &Items<Text>, names: &[&str]) -> bool {
    match names.split_first() {
        Some((name, rest)) => first.as_str() == *name && are_names(others.as_slice(), rest),
        None => false,
    }
}

fn are_all(printer: &Text, plan: &Text, meshes: &Items<Text>, names: &[&str]) -> bool {
    match names.split_first() {
        Some((name, rest)) => printer.as_str() == *name && are_files(plan, meshes, rest),
        None => false,
    }
}

fn is_wanted(command: &Command, want: Want) -> bool {
    match (command, want) {
        (
            Command::Arrange {
                least,
                strict,
                budget,
                printer,
                meshes,
            },
            Want::Arrange(is_least, is_strict, most, names),
        ) => {
            (*least, *strict, *budget) == (is_least, is_strict, most)
                && are_files(printer, meshes, names)
        }
        (
            Command::Check {
                printer,
                plan,
                meshes,
            },
            Want::Check(names),
        ) => are_all(printer, plan, meshes, names),
        (
            Command::Audit {
                printer,
                plan,
                meshes,
            },
            Want::Audit(names),
        ) => are_all(printer, plan, meshes, names),
        (Command::Slices { printer, mesh }, Want::Slices(names)) => {
            names.len() == 2 && printer.as_str() == names[0] && mesh.as_str() == names[1]
        }
        (Command::Trial { objects, seed }, Want::Trial(k, n)) => (*objects, *seed) == (k, n),
        _ => false,
    }
}

fn spells(alloc: Global, line: &str, want: Want) -> bool {
    match command_of(alloc, line) {
        Ok(command) => is_wanted(&command, want),
        Err(_) => false,
    }
}

#[test]
fn commands_are_read_as_the_words_spell_them(rt: HostRuntime) {
    for (line, want) in &ACCEPTED {
        assert!(rt; spells(rt.alloc(), line, *want));
    }
}

#[test]
fn words_are_refused_with_their_cause(rt: HostRuntime) {
    for (line, want) in &REFUSED {
        assert!(rt; command_of(rt.alloc(), line).err() == Some(*want));
    }
    let none: Vec<String> = Vec::new(rt.alloc());
    assert!(rt; read(rt.alloc(), &none).err() == Some(Words::Unknown));
}
