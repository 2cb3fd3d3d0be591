ghost use Rattle.std.specs.Prelude.{◌≡◌, ◌≤◌, length, IfOk, IfErr, OnOk};
ghost use Rattle.seq_io.specs.Files.{GivesFile};
ghost use Rattle.run_files.specs.Files.{limit_of, name_in};
ghost use Rattle.run_files.specs.Stops.{IsUnread, NextRead};

use crate::words::name_in;
use crate::{Asked, NamedFile};
use seq_io::{ReadAll, Shelf, read_all};
use std::alloc::Global;

// The most bytes that a file may have: 1 MiB for a description, 256 MiB for a plan, 64 MiB for a mesh.
fn limit_of(file: NamedFile) -> usize
    ensures { result ≡ limit_of file }
{
    match file {
        NamedFile::Printer => 1 << 20,
        NamedFile::Plan => 256 << 20,
        NamedFile::Mesh(_) => 64 << 20,
    }
}

/// The bytes of a file that the words name. No other file is started, and nothing is tried again.
pub fn read_file<S: Shelf>(
    alloc: Global,
    asked: &Asked,
    file: NamedFile,
    shelf: &mut S,
) -> Result<Vec<u8>, ReadAll>
    ensures bytes { IfOk result (λ v. GivesFile
        (S.shows shelf.old).files (name_in asked.now file) v.items) }
    ensures short { IfOk result (λ v. length v.items ≤ limit_of file) }
    ensures read { OnOk result (NextRead (name_in asked.now file)
        (S.shows shelf.old) (S.shows shelf.new)) }
    ensures why { IfErr result (IsUnread (limit_of file) (name_in asked.now file)
        (S.shows shelf.old) (S.shows shelf.new)) }
    ensures files { (S.shows shelf.new).files ≡ (S.shows shelf.old).files }
{
    let Ok(own_name) = String::from_str(alloc, name_in(asked, file)) else {
        return Err(ReadAll::NoMemory);
    };
    read_all(alloc, shelf, own_name, limit_of(file))
}
