//! How great the numbers of a system's rows are.

ghost use Rattle.std.specs.Prelude.{◌+◌, ◌*◌, ◌≤◌, ℕ, List, length, All};
ghost use Rattle.search_laws.specs.Sizes.{IsSized, IsSmallRow};
ghost use Rattle.seq_model.specs.Bounds.{IsNearSpot};
ghost use Rattle.seq_model.specs.Contacts.{IsContact, points_of};
ghost use Rattle.seq_model.specs.Sides.{Side};
ghost use Rattle.seq_model.specs.Systems.{system};
ghost use Rattle.seq_model.specs.Trees.{IsPath};
ghost use Rattle.seq_model.specs.declared.job.Job.{Job};
ghost use Rattle.seq_model.specs.declared.printer.Spot.{Spot};
ghost use Rattle.seq_model.specs.declared.tree.Choice.{Choice};
ghost use Rattle.seq_model.specs.declared.tree.Contact.{Contact};
ghost use Rattle.seq_model.specs.declared.tree.Dir.{Dir};

/// The two numbers of a side of a list whose spots are at most n in size are at most 2n; those of a contact's side are at most
/// 2,002,000, below 2^21, since each of its sides is one of an outline, turned round or not.
pub fn a_side_is_small()
    ensures of_a_list { (spots : List Spot) (dir : Dir) (n : ℕ) → All (IsNearSpot n) spots
        → Side spots dir → IsSized (n + n) dir.x dir.y }
    ensures of_a_contact { (job : Job) (contact : Contact) (dir : Dir) → IsContact job contact
        → Side (points_of job contact) dir → IsSized 2_002_000 dir.x dir.y }
{}

/// The rows of a path of the job have two coefficients for each object, below 2^21 in size, and constants below 2^44.
pub fn rows_are_small()
    ensures { (job : Job) (e : ℕ) (path : List Choice) → e ≤ job.printer.grid → IsPath job path
        → All (IsSmallRow (2 * length job.objects)) (system job e path) }
{}
