//! Collisions of objects, by their contacts.

ghost use Rattle.std.specs.Prelude.{◌≢◌, ℕ, ◌↔◌};
ghost use Rattle.seq_model.specs.Contacts.{IsContact, ContactCollides};
ghost use Rattle.seq_model.specs.Jobs.{scene_of_job};
ghost use Rattle.seq_model.specs.Points.{Point};
ghost use Rattle.seq_model.specs.Scenes.{Collides};
ghost use Rattle.seq_model.specs.declared.job.Job.{Job};
ghost use Rattle.seq_model.specs.declared.tree.Contact.{Contact};
ghost use Rattle.model_laws.specs.Collisions.{ByBands, ByContact};

/// Two objects collide at two places just where a contact of theirs does, the earlier object being the contact's earlier one.
pub fn objects_collide_by_a_contact()
    ensures if_a_contact_does { (job : Job) (c : Contact) (p r : Point) → ContactCollides job c p r
        → Collides (scene_of_job job) c.i p c.j r }
    ensures only_then { (job : Job) (i j : ℕ) (p r : Point) → i ≢ j → Collides (scene_of_job job) i p j r
        → ByContact job i j p r }
{}

/// A contact collides just where the spots of some bands of its two zones do, which meet by its part: what is asked of the
/// corners of the zones is what is asked of two objects, with these bands and this part.
pub fn a_contact_collides_by_bands_of_its_zones()
    ensures { (job : Job) (c : Contact) (p r : Point) → ContactCollides job c p r
        ↔ (IsContact job c × ByBands job c p r) }
{}
