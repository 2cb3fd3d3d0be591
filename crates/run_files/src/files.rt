ghost use Rattle.std.specs.Prelude.{◌≡◌, IfOk, IfErr, OnOk};
ghost use Rattle.seq_io.specs.Views.{ShelfView};
ghost use Rattle.run_files.specs.Files.{IsMeshFile, IsPrinterOf, name_in};
ghost use Rattle.run_files.specs.Stops.{Explains, IsNextFile, NextRead};
ghost use Rattle.run_files.specs.declared.stop.NamedFile.{NamedFile};

use crate::reading::read_file;
use crate::stop::stop_of;
use crate::{Asked, Cause, NamedFile, Stop};
use printer_text::{Prn, read_printer};
use seq_io::Shelf;
use seq_model::{Mesh, Printer};
use std::alloc::Global;
use stl_text::{Stl, read_mesh};

/// The printer that the words name.
pub fn load_printer<S: Shelf>(alloc: Global, asked: &Asked, shelf: &mut S) -> Result<Printer, Stop>
    ensures is { IfOk result (IsPrinterOf (S.shows shelf.old).files asked.now.printer) }
    ensures read { OnOk result (NextRead asked.now.printer
        (S.shows shelf.old) (S.shows shelf.new)) }
    ensures why { IfErr result (Explains asked.now (S.shows shelf.old) (S.shows shelf.new)) }
    ensures files { (S.shows shelf.new).files ≡ (S.shows shelf.old).files }
{
    let bytes = match read_file(alloc, asked, NamedFile::Printer, shelf) {
        Ok(bytes) => bytes,
        Err(why) => return Err(stop_of(NamedFile::Printer, why)),
    };
    match read_printer(alloc, &bytes) {
        Ok(printer) => Ok(printer),
        Err(Prn::NoMemory) => Err(Stop::Memory),
        Err(e) => Err(Stop::Input(NamedFile::Printer, Cause::Printer(e))),
    }
}

/// The mesh of this number, where it is the next file in word order. `s` is what the shelf showed before the first file.
pub fn load_mesh<S: Shelf>(
    alloc: Global,
    asked: &Asked,
    number: usize,
    shelf: &mut S,
) -> Result<Mesh, Stop>
    ensures is { IfOk result (λ mesh. IsMeshFile (S.shows shelf.old).files
        (name_in asked.now (NamedFile.Mesh number)) mesh.facets mesh.dropped) }
    ensures read { OnOk result (NextRead (name_in asked.now (NamedFile.Mesh number))
        (S.shows shelf.old) (S.shows shelf.new)) }
    ensures files { (S.shows shelf.new).files ≡ (S.shows shelf.old).files }
    ensures why { (s : ShelfView) → IsNextFile asked.now (NamedFile.Mesh number) s (S.shows shelf.old)
        → IfErr result (Explains asked.now s (S.shows shelf.new)) }
{
    let bytes = match read_file(alloc, asked, NamedFile::Mesh(number), shelf) {
        Ok(bytes) => bytes,
        Err(why) => return Err(stop_of(NamedFile::Mesh(number), why)),
    };
    match read_mesh(alloc, &bytes) {
        Ok(mesh) => Ok(mesh),
        Err(Stl::NoMemory) => Err(Stop::Memory),
        Err(e) => Err(Stop::Input(NamedFile::Mesh(number), Cause::Stl(e))),
    }
}
