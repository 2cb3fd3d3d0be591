//! What an audit of a plan has to look at.

ghost use Rattle.std.specs.Prelude.{ℕ, ◌↔◌};
ghost use Rattle.plan_laws.specs.Audits.{IsAudited};
ghost use Rattle.seq_model.specs.Jobs.{scene_of_job};
ghost use Rattle.seq_model.specs.Scenes.{Valid};
ghost use Rattle.seq_model.specs.declared.job.Job.{Job};
ghost use Rattle.seq_model.specs.declared.plan.Plan.{Plan};

/// A plan is valid just where each object stands in it once and nothing else does, each object's box, from its low to its high, lies in the
/// region at its place, and no contact collides at the places of an earlier object and a later one.
pub fn a_plan_is_valid_by_its_boxes_and_contacts()
    ensures { (job : Job) (e : ℕ) (plan : Plan)
        → Valid (scene_of_job job) e plan ↔ IsAudited job e plan }
{}
