//! The sides of a contact.

ghost use Rattle.std.specs.Prelude.{◌≡◌, ◌≢◌, ℕ, ◌≤◌, pos, ◌≤ℤ◌, List, Contains, ◌↔◌};
ghost use Rattle.integer_laws.specs.Members.{In};
ghost use Rattle.outline_laws.specs.Corners.{HasArea};
ghost use Rattle.plan_laws.specs.Gaps.{gap_at};
ghost use Rattle.search_laws.specs.Covering.{AreEnough};
ghost use Rattle.seq_model.specs.Budgets.{HasSides, IsMostSides, Full};
ghost use Rattle.seq_model.specs.Contacts.{ContactCollides, IsContact, points_of};
ghost use Rattle.seq_model.specs.Jobs.{scene_of_job};
ghost use Rattle.seq_model.specs.Outlines.{Inner};
ghost use Rattle.seq_model.specs.Points.{Point, IsPoint};
ghost use Rattle.seq_model.specs.Scenes.{Collides};
ghost use Rattle.seq_model.specs.Sides.{AreSides, Beyond};
ghost use Rattle.seq_model.specs.Splits.{Values, IsOn, ContactCollidesAt};
ghost use Rattle.seq_model.specs.Trees.{IsPath};
ghost use Rattle.seq_model.specs.declared.job.Job.{Job};
ghost use Rattle.seq_model.specs.declared.tree.Choice.{Choice};
ghost use Rattle.seq_model.specs.declared.tree.Choice.TheVariants as Choices;
ghost use Rattle.seq_model.specs.declared.tree.Contact.{Contact};
ghost use Rattle.seq_model.specs.declared.tree.Dir.{Dir};

/// A contact has a list of sides: three or more, and at most 8,008,036, as many as its three outlines can have corners.
pub fn a_contact_has_sides()
    ensures some { (job : Job) (contact : Contact) → IsContact job contact
        → (dirs : List Dir) × AreSides (points_of job contact) dirs }
    ensures three { (job : Job) (contact : Contact) (n : ℕ) → HasSides job contact n → 3 ≤ n }
    ensures few { (job : Job) (contact : Contact) (n : ℕ) → HasSides job contact n → n ≤ 8_008_036 }
{}

/// A contact's difference has area; and a point that isn't inner to it is beyond one of the listed sides, which a refutation goes on to.
pub fn a_point_that_is_not_inner_is_beyond_a_side()
    ensures area { (job : Job) (contact : Contact) → IsContact job contact
        → HasArea (points_of job contact) }
    ensures side { (job : Job) (contact : Contact) (dirs : List Dir) (q : Point)
        → IsContact job contact → AreSides (points_of job contact) dirs → IsPoint q
        → (Inner (points_of job contact) q → ⊥)
        → (dir : Dir) × Contains dirs dir × Beyond (points_of job contact) dir q }
{}

/// A contact collides at a point just where the later place less the earlier one is inner to the contact's difference.
pub fn a_contact_collides_where_its_gap_is_inner()
    ensures { (job : Job) (e : ℕ) (at : Values) (contact : Contact) → pos 1 ≤ℤ at.d
        → ContactCollidesAt job e at contact
        ↔ (IsContact job contact × Inner (points_of job contact) (gap_at job e at.d at.u contact)) }
{}

/// It is enough to look at contacts that cover the others of the same two objects in the same order: where none of these collides at two
/// places, the objects don't.
pub fn covering_contacts_are_enough()
    ensures { (job : Job) (kept : List Contact) → AreEnough job kept → (p r : Point) → IsPoint p
        → IsPoint r → (i j : ℕ) → i ≢ j
        → ((k : Contact) → In k kept → k.i ≡ i → k.j ≡ j → ContactCollides job k p r → ⊥)
        → Collides (scene_of_job job) i p j r → ⊥ }
{}

/// A contact doesn't collide at a point of a path of the job that has one of its sides: so none is opened twice.
pub fn an_opened_contact_is_clear()
    ensures { (job : Job) (e : ℕ) (path : List Choice) (contact : Contact) (dir : Dir) (at : Values)
        → IsPath job path → IsOn job e path at → Contains path (Choices.Side contact dir)
        → ContactCollidesAt job e at contact → ⊥ }
{}

/// A job has a greatest number of sides of a contact, and so a number of nodes that is Full.
pub fn a_job_has_most_sides()
    ensures most { (job : Job) → (s : ℕ) × IsMostSides job s }
    ensures full { (job : Job) → (full : ℕ) × Full job full }
{}
