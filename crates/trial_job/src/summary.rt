ghost use Rattle.std.specs.Prelude.{◌≡◌, ◌≤◌, IfOk};
ghost use Rattle.seq_model.specs.Soundness.{IsSoundObject, AreSoundObjects};
ghost use Rattle.trial_job.specs.Trials.{summary_text, zone_count};

use crate::TrialJob;
use seq_model::Object;
use seq_num::NoMemory;
use std::alloc::Global;
use text_lines::{put_line, put_number};

// How many zones the objects have together.
fn zone_count(objects: &[Object]) -> u64
    requires { AreSoundObjects objects.now }
    ensures { result ≡ zone_count objects.now }
{
    let mut count = 0;
    for object in objects {
        count += object.zones.len() as u64;
    }
    count
}

/// The lines that tell of a trial: its two numbers, and how many objects, facets and zones it has.
#[tactic(auto, unfolding(crate::specs::Trials::summary_text))]
pub fn summary_text(
    alloc: Global,
    objects: u32,
    seed: u64,
    trial: &TrialJob,
) -> Result<Vec<u8>, NoMemory>
    ensures { IfOk result (λ text. text.items ≡ summary_text objects seed
        trial.now.facets (zone_count trial.now.job.objects)) }
{
    let zones = zone_count(trial.job.objects.as_slice());
    let mut text = Vec::new(alloc);
    put_number(&mut text, b"trial ", i128::from(objects))?;
    put_line(&mut text, b" ", i128::from(seed))?;
    put_line(&mut text, b"objects ", i128::from(objects))?;
    put_line(&mut text, b"facets ", i128::from(trial.facets))?;
    put_line(&mut text, b"zones ", i128::from(zones))?;
    Ok(text)
}
