use owned_lists::{Items, Text};

/// The number that is refused.
#[derive(Debug, Clone, Copy, PartialEq, Eq)]
pub enum Opt {
    /// The value of `--budget`.
    Budget,
    K,
    N,
}

/// Why the words are refused.
#[derive(Debug, Clone, Copy, PartialEq, Eq)]
pub enum Words {
    /// There is no first word, or it names no command.
    Unknown,
    /// The rest isn't what the command takes.
    Usage,
    /// Not one to ten digits, or out of its range.
    BadNumber(Opt),
    /// More than 16 meshes.
    TooMany,
    NoMemory,
}

/// What the words ask for. Printer, plan and meshes are names of files.
#[derive(Debug, Drop)]
pub enum Command {
    Arrange {
        least: bool,
        strict: bool,
        budget: u64,
        printer: Text,
        meshes: Items<Text>,
    },
    Check {
        printer: Text,
        plan: Text,
        meshes: Items<Text>,
    },
    Audit {
        printer: Text,
        plan: Text,
        meshes: Items<Text>,
    },
    Slices {
        printer: Text,
        mesh: Text,
    },
    Trial {
        objects: u32,
        seed: u64,
    },
}
