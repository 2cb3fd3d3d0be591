//! Where a look stands: at a point of a path, with all that is asked there.
ghost use Rattle.std.specs.Prelude.{◌≡◌, ◌<◌, length};
ghost use Rattle.node_looks.specs.Held.{IsTable};
ghost use Rattle.plan_laws.specs.Looking.{is_before};

use pair_constraints::{Contacts, SolvedPoint};
use search_room::Room;
use seq_model::{Choice, Job};

/// A point of the system of a path.
#[derive(Clone, Copy, Debug)]
pub(crate) struct Site<'a> {
    pub job: &'a Job,
    pub extent: u32,
    pub path: &'a [Choice],
    /// The path's orders.
    pub table: &'a [bool; 256],
    /// The maximal contacts of the job.
    pub contacts: &'a Contacts,
    /// What the path leaves each variable.
    pub room: &'a Room,
    pub at: SolvedPoint<'a>,
}

impl<'a> Site<'a> {
    /// How many objects the job has.
    pub fn object_count(&self) -> u32
        ensures { result ≡ length self.now.job.now.objects }
    {
        self.job.objects.len() as u32
    }

    /// Whether i is before j on the path.
    pub fn is_before(&self, i: u32, j: u32) -> bool
        requires table { IsTable self.now.path.now self.now.table.now }
        requires i { i < 16 }
        requires j { j < 16 }
        ensures { result ≡ is_before self.now.path.now i j }
    {
        self.table[(16 * i + j) as usize]
    }
}
