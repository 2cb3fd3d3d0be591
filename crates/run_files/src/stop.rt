ghost use Rattle.std.specs.Prelude.{◌≡◌};
ghost use Rattle.run_files.specs.Stops.{stop_of, unfit_stop};

use cert_text::CertRead;
use plan_text::PlanRead;
use printer_text::Prn;
use seq_io::ReadAll;
use seq_num::NoMemory;
use std::alloc::AllocError;
use stl_text::Stl;

/// A file that the words name. Meshes are numbered from 0 in word order.
#[derive(Clone, Copy, PartialEq, Eq, Debug)]
pub enum NamedFile {
    Printer,
    Plan,
    Mesh(usize),
}

/// Why a file is refused for its bytes.
#[derive(Debug, Drop)]
pub enum Cause {
    /// It is over its limit.
    TooLong,
    Printer(Prn),
    Plan(PlanRead),
    /// Of the tree block behind a plan's own lines.
    Block(CertRead),
    Stl(Stl),
    /// A strict run, and edges are open or the volume isn't positive.
    NotClosed { open_edges: u64, six_volume: i128 },
    /// No facet of the mesh is left.
    Flat,
    /// The mesh has so many bands, more than 200.
    TooTall(u64),
}

/// Why a run stops at its files.
#[derive(Debug, Drop)]
pub enum Stop {
    Read(NamedFile),
    Input(NamedFile, Cause),
    Memory,
}

/// Why a file that was read can't be used.
#[derive(Debug, Drop)]
pub enum Unfit {
    Because(Cause),
    NoMemory,
}

/// The stop at a file that wasn't read.
pub fn stop_of(file: NamedFile, why: ReadAll) -> Stop
    ensures { result ≡ stop_of file why }
{
    match why {
        ReadAll::ReadFault => Stop::Read(file),
        ReadAll::TooLong => Stop::Input(file, Cause::TooLong),
        ReadAll::NoMemory => Stop::Memory,
    }
}

/// The stop at a file that was read and can't be used.
pub fn stop_at(file: NamedFile, why: Unfit) -> Stop
    ensures { result ≡ unfit_stop file why }
{
    match why {
        Unfit::Because(cause) => Stop::Input(file, cause),
        Unfit::NoMemory => Stop::Memory,
    }
}

impl From<NoMemory> for Stop {
    ghost use Rattle.run_files.specs.declared.stop.Stop.TheVariants.{Memory};

    ghost from_gives = { λ _ e. e ≡ Memory };

    fn from(_: NoMemory) -> Self {
        Stop::Memory
    }
}

impl From<AllocError> for Unfit {
    ghost use Rattle.run_files.specs.declared.stop.Unfit.TheVariants.{NoMemory};

    ghost from_gives = { λ _ e. e ≡ NoMemory };

    fn from(_: AllocError) -> Self {
        Unfit::NoMemory
    }
}

impl From<NoMemory> for Unfit {
    ghost use Rattle.run_files.specs.declared.stop.Unfit.TheVariants.{NoMemory};

    ghost from_gives = { λ _ e. e ≡ NoMemory };

    fn from(_: NoMemory) -> Self {
        Unfit::NoMemory
    }
}
