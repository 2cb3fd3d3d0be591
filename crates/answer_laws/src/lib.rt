//! What a plan and a tree say of the files that a job was made from.
//!
//! The laws of search speak of the scene of a job, which has hulls for spots and zones for bands. Here they are said of the scene of
//! the files: every spot of every mesh and the parts as they are listed. That is what a user means by a plan that is valid, by an
//! extent at which none is, and by the least one.
//!
//! Each law is the contract of a call that does nothing. It stands on the laws of search and on those of slices, which show that the
//! two scenes have the same valid plans.
#![tactic(auto)]

ghost use Rattle.std.specs.Prelude.{ℕ, ◌+◌, ◌≤◌, List};
ghost use Rattle.mesh_slices.specs.Agreement.{IsMadeFrom};
ghost use Rattle.seq_model.specs.Scenes.{Valid, Least, scene_of_files, description_of};
ghost use Rattle.seq_model.specs.Trees.{TreeRefutes};
ghost use Rattle.seq_model.specs.declared.job.Job.{Job};
ghost use Rattle.seq_model.specs.declared.mesh.Facet.{Facet};
ghost use Rattle.seq_model.specs.declared.plan.Plan.{Plan};
ghost use Rattle.seq_model.specs.declared.printer.Part.{Part};
ghost use Rattle.seq_model.specs.declared.tree.Tree.{Tree};

/// Where a tree refutes an extent for a job, no plan of the files that the job was made from is valid there, nor at a smaller one. Where
/// it refutes the whole grid none is valid anywhere.
pub fn a_refuted_job_has_no_plan_of_its_files()
    ensures below { (listed : List Part) (meshes : List (List Facet)) (job : Job)
        → IsMadeFrom listed meshes job → (e f : ℕ) (tree : Tree) (plan : Plan)
        → TreeRefutes job e tree → f ≤ e → e ≤ job.printer.grid
        → Valid (scene_of_files (description_of job.printer listed) meshes) f plan → ⊥ }
    ensures anywhere { (listed : List Part) (meshes : List (List Facet)) (job : Job)
        → IsMadeFrom listed meshes job → (f : ℕ) (tree : Tree) (plan : Plan)
        → TreeRefutes job job.printer.grid tree
        → Valid (scene_of_files (description_of job.printer listed) meshes) f plan → ⊥ }
{}

/// And where, besides, a plan of these files is valid at the next extent, that extent is their least one; a plan at extent 1 shows it by
/// itself.
pub fn a_plan_and_a_tree_show_the_least_extent_of_the_files()
    ensures next { (listed : List Part) (meshes : List (List Facet)) (job : Job)
        → IsMadeFrom listed meshes job → (e : ℕ) (plan : Plan) (tree : Tree)
        → Valid (scene_of_files (description_of job.printer listed) meshes) (e + 1) plan
        → TreeRefutes job e tree
        → Least (scene_of_files (description_of job.printer listed) meshes) (e + 1) }
    ensures first { (listed : List Part) (meshes : List (List Facet)) (job : Job)
        → IsMadeFrom listed meshes job → (plan : Plan)
        → Valid (scene_of_files (description_of job.printer listed) meshes) 1 plan
        → Least (scene_of_files (description_of job.printer listed) meshes) 1 }
{}
