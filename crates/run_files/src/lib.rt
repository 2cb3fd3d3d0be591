//! What the words of a command ask for, and what the files that they name give.
//!
//! `read_request` says what is to be done, and with which files: a printer, a plan for an audit or a check, and 1 to 16 meshes; or that files are
//! to be made, for a trial. `load` reads them in word
//! order, each once and only where those before it can be used: it answers the job of the printer and the meshes, the plan, and what is
//! noted of the meshes. Its clauses say that these are what the bytes of the files state, or which file stopped the run and why, and what
//! was done with the shelf. `a_job_has_the_plans_of_its_files` is the law that the job has their valid plans, and `the_job_of_files_is_one`
//! that there is no other.
//!
//! `specs/Words`, `Plans` and `Files` say what is asked for and what the files hold, `Causes` when one is refused, `Stops` what was done with the
//! shelf, `Jobs` and `Notes` what is made of them. It stands on the crates that read, check and slice, and below the top call.
#![tactic(auto)]

mod files;
mod laws;
mod loading;
mod meshes;
mod plans;
mod reading;
mod stop;
mod words;

pub use laws::{
    a_job_has_the_plans_of_its_files, a_job_is_made_from_its_files, the_job_of_files_is_one,
};
pub use loading::{Loaded, load};
pub use plans::GivenPlan;
pub use stop::{Cause, NamedFile, Stop, Unfit};
pub use words::{Asked, Request, Task, name_in, read_request};
