//! Laws over the definitions. Each is the contract of a call that does nothing.

ghost use Rattle.std.specs.Prelude.{◌≡◌, ℕ, ℤ, pos, ◌≤ℤ◌, List, All, Contains, ◌↔◌};
ghost use Rattle.seq_model.specs.declared.job.Job.{Job};
ghost use Rattle.seq_model.specs.declared.job.Object.{Object};
ghost use Rattle.seq_model.specs.declared.mesh.Facet.{Facet};
ghost use Rattle.seq_model.specs.declared.plan.Plan.{Plan};
ghost use Rattle.seq_model.specs.declared.printer.Part.{Part};
ghost use Rattle.seq_model.specs.declared.printer.Printer.{Printer};
ghost use Rattle.seq_model.specs.declared.printer.Spot.{Spot};
ghost use Rattle.seq_model.specs.Bands.{corner_points};
ghost use Rattle.seq_model.specs.Jobs.{scene_of_job};
ghost use Rattle.seq_model.specs.Outlines.{spots, Within};
ghost use Rattle.seq_model.specs.Scenes.{Scene, Valid, Least, scene_of_files, description_of};
ghost use Rattle.seq_model.specs.Points.{at_spot};
ghost use Rattle.mesh_slices.specs.Agreement.{Agree, HasZonesOf, IsMadeFrom};
ghost use Rattle.mesh_slices.specs.Cover.{SpacePoint, LiesOn, HasBand, Covers, ZonesCover};
ghost use Rattle.mesh_slices.specs.Objects.{IsOutlineOf, IsObjectOf};

/// Scenes that agree have the same valid plans.
pub fn scenes_that_agree_have_the_same_valid_plans()
    ensures { (s t : Scene) → Agree s t → (e : ℕ) (plan : Plan) → Valid s e plan ↔ Valid t e plan }
{}

/// And the same least extents.
pub fn scenes_that_agree_have_the_same_least_extents()
    ensures { (s t : Scene) → Agree s t → (e : ℕ) → Least s e ↔ Least t e }
{}

/// The scene of a job agrees with the scene of the meshes and the listed parts that it was made from.
pub fn a_job_agrees_with_its_files()
    ensures { (listed : List Part) (meshes : List (List Facet)) (job : Job) → IsMadeFrom listed meshes job
        → Agree (scene_of_files (description_of job.printer listed) meshes) (scene_of_job job) }
{}

/// So the plans that are valid for the job are those that are valid for its files.
pub fn a_job_has_the_valid_plans_of_its_files()
    ensures { (listed : List Part) (meshes : List (List Facet)) (job : Job)
        → IsMadeFrom listed meshes job → (e : ℕ) (plan : Plan)
        → Valid (scene_of_files (description_of job.printer listed) meshes) e plan
        ↔ Valid (scene_of_job job) e plan }
{}

/// And the least extent of the job is that of its files.
pub fn a_job_has_the_least_extent_of_its_files()
    ensures { (listed : List Part) (meshes : List (List Facet)) (job : Job)
        → IsMadeFrom listed meshes job → (e : ℕ)
        → Least (scene_of_files (description_of job.printer listed) meshes) e ↔ Least (scene_of_job job) e }
{}

/// The spots of a band cover it: each point of a facet whose height is that of the band lies, in grains, within them.
pub fn the_spots_of_a_band_cover_it()
    ensures { (facets : List Facet) (grain step margin : ℤ) (b : ℕ)
        → pos 1 ≤ℤ grain → pos 1 ≤ℤ step → pos 1 ≤ℤ margin
        → Covers facets grain step b (spots grain margin (corner_points facets step b)) }
{}

/// What covers a band lies within each list that has its members within it, as an outline has: so that covers the band too.
pub fn what_holds_the_spots_covers_the_band()
    ensures { (facets : List Facet) (grain step : ℤ) (b : ℕ) (list outline : List Spot)
        → Covers facets grain step b list → All (λ s. Within outline (at_spot s)) list
        → Covers facets grain step b outline }
{}

/// Each point of a facet has the height of one of the bands of its mesh.
pub fn each_point_of_a_mesh_has_a_band()
    ensures { (facets : List Facet) (step : ℤ) (f : Facet) (q : SpacePoint)
        → pos 1 ≤ℤ step → Contains facets f → LiesOn f q → HasBand facets step q }
{}

/// No point of a mesh in a band is lost: it lies, in grains, within the corners of the zone that holds the band.
pub fn zones_cover_their_bands()
    ensures { (printer : Printer) (facets : List Facet) (o : Object)
        → HasZonesOf printer facets o → ZonesCover printer facets o }
{}

/// Spots have one outline: where two bands have one convex hull, they have one list of corners.
pub fn one_outline()
    ensures { (S C D : List Spot) → IsOutlineOf S C → IsOutlineOf S D → C ≡ D }
{}

/// A mesh has one object, so the contract of `object` says which one is answered.
pub fn one_object()
    ensures { (name : List ℕ) (facets : List Facet) (printer : Printer) (o q : Object)
        → IsObjectOf name facets printer o → IsObjectOf name facets printer q → o ≡ q }
{}
