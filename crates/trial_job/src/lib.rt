//! The job of a trial: of the files that are made from a number of objects and a seed.
//!
//! `trial_job` answers a job for every number and every seed: its contract gives the description and the meshes that the made
//! files state, and the job is that of these, as `run_files` gives it of files that a run reads. So what is found for the job
//! is true of the made files. No reader refuses one of them, which `trial_laws` shows; only memory can be wanting.
//! `summary_text` writes the lines that tell of it.
//!
//! It stands on the made files and on the readers and the slices that a run uses; the command `trial` arranges the job.
#![tactic(auto)]

mod making;
mod summary;

pub use making::{TrialJob, trial_job};
pub use summary::summary_text;
