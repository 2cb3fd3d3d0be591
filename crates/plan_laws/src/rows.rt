//! The rows of a system, and the points of a path and of its parts.

ghost use Rattle.std.specs.Prelude.{◌≡◌, ◌+◌, ◌*◌, ℕ, ℤ, pos, ◌≤ℤ◌, List, length, ◌↔◌};
ghost use Rattle.plan_laws.specs.Gaps.{gap_at};
ghost use Rattle.plan_laws.specs.Members.{IsPart, MeetsSides, side_count};
ghost use Rattle.seq_model.specs.Contacts.{IsContact, points_of};
ghost use Rattle.seq_model.specs.Sides.{Beyond};
ghost use Rattle.seq_model.specs.Splits.{Values, IsOn, Grounded};
ghost use Rattle.seq_model.specs.Systems.{system, row_value, side_row};
ghost use Rattle.seq_model.specs.declared.job.Job.{Job};
ghost use Rattle.seq_model.specs.declared.tree.Choice.{Choice};
ghost use Rattle.seq_model.specs.declared.tree.Contact.{Contact};
ghost use Rattle.seq_model.specs.declared.tree.Dir.{Dir};
ghost use Rattle.seq_model.specs.declared.tree.Node.{Node};

/// A system has two rows for each object and one for each side on the path.
pub fn a_system_has_a_row_for_each_bound_and_side()
    ensures { (job : Job) (e : ℕ) (path : List Choice)
        → length (system job e path) ≡ 2 * length job.objects + side_count path }
{}

/// The row of a side of a contact is at least 0 at a point just where the later place less the earlier one is beyond the side there.
pub fn a_side_row_is_met_beyond_the_side()
    ensures { (job : Job) (e : ℕ) (d : ℤ) (u : List ℤ) (contact : Contact) (dir : Dir)
        → IsContact job contact → length u ≡ 2 * length job.objects
        → (pos 0 ≤ℤ row_value d u (side_row job e contact dir))
        ↔ Beyond (points_of job contact) dir (gap_at job e d u contact) }
{}

/// The points of a path are those of its choices, in whatever order they stand: so a point of a path is one of each path that has only
/// choices of it, and a split that is grounded on the path is so on such a one.
pub fn a_part_of_a_path_has_its_points()
    ensures members { (job : Job) (e : ℕ) (base path : List Choice) (at : Values)
        → IsOn job e base at → MeetsSides job e path at → IsOn job e path at }
    ensures part { (job : Job) (e : ℕ) (part path : List Choice) (at : Values) → IsPart part path
        → IsOn job e path at → IsOn job e part at }
    ensures grounded { (job : Job) (e : ℕ) (part path : List Choice) (node : Node)
        → IsPart part path → Grounded job e path node → Grounded job e part node }
{}
