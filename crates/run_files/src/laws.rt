//! Laws over the definitions. Each is the contract of a call that does nothing.

ghost use Rattle.std.specs.Prelude.{◌≡◌, ◌↔◌, ℕ, List};
ghost use Rattle.mesh_slices.specs.Agreement.{IsMadeFrom};
ghost use Rattle.seq_model.specs.Jobs.{scene_of_job};
ghost use Rattle.seq_model.specs.Scenes.{Description, Valid, scene_of_files};
ghost use Rattle.seq_model.specs.declared.job.Job.{Job};
ghost use Rattle.seq_model.specs.declared.plan.Plan.{Plan};
ghost use Rattle.run_files.specs.Files.{NamedMesh, facets_of};
ghost use Rattle.run_files.specs.Jobs.{IsJobOf};

use mesh_slices::laws::one_object;

/// The job of a description and its meshes is made from them: from the parts as they are listed, and from the facets.
pub fn a_job_is_made_from_its_files()
    ensures { (d : Description) (meshes : List NamedMesh) (job : Job) → IsJobOf d meshes job
        → IsMadeFrom d.parts (facets_of meshes) job }
{}

/// So the plans that are valid for it are those that are valid for the files.
pub fn a_job_has_the_plans_of_its_files()
    ensures { (d : Description) (meshes : List NamedMesh) (job : Job) → IsJobOf d meshes job
        → (e : ℕ) (plan : Plan)
        → Valid (scene_of_files d (facets_of meshes)) e plan ↔ Valid (scene_of_job job) e plan }
{}

/// And there is no other job of them.
pub fn the_job_of_files_is_one()
    ensures { (d : Description) (meshes : List NamedMesh) (job other : Job)
        → IsJobOf d meshes job → IsJobOf d meshes other → other ≡ job }
{
    one_object();
}
