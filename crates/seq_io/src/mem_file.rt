ghost use Rattle.std.specs.Prelude.{◌≡◌, string_bytes};

use owned_lists::{Items, Text};

/// A name and its bytes.
#[derive(Debug, Drop)]
pub struct MemFile {
    pub name: Text,
    pub bytes: Items<u8>,
}

impl MemFile {
    pub fn new(name: String, bytes: Vec<u8>) -> MemFile
        ensures name { result.name ≡ string_bytes name }
        ensures bytes { result.bytes ≡ bytes.items }
    {
        MemFile {
            name: Text::from_string(name),
            bytes: Items::from_vec(bytes),
        }
    }
}
