ghost use Rattle.std.specs.Prelude.{◌≡◌, IfOk};
ghost use Rattle.decision_text.specs.DecisionText.{decision_text, file_for, file_of, outcome_text, statement_text};
ghost use Rattle.plan_text.specs.PlanText.{IsPlanFile};

use crate::Statement;
use crate::statement::{statement_for, statement_of};
use cert_text::write_tree;
use plan_text::write_plan;
use plate_shrink::Outcome;
use refinement_loop::Decision;
use seq_num::NoMemory;
use std::alloc::Global;

fn statement_text(alloc: Global, statement: &Statement) -> Result<Vec<u8>, NoMemory>
    requires { IsPlanFile statement.now.file }
    ensures { IfOk result (λ text. text.items ≡ statement_text statement.now) }
{
    let mut text = write_plan(alloc, &statement.file)?;
    match &statement.block {
        None => Ok(text),
        Some(block) => {
            let lines = write_tree(alloc, &block.0, &block.1)?;
            text.extend_from_slice(&lines)?;
            Ok(text)
        }
    }
}

/// The text of a decision of the whole plate.
pub fn decision_text(alloc: Global, grid: u32, decision: Decision) -> Result<Vec<u8>, NoMemory>
    requires { IsPlanFile (file_of grid decision) }
    ensures { IfOk result (λ text. text.items ≡ decision_text grid decision) }
{
    statement_text(alloc, &statement_of(alloc, grid, decision))
}

/// The text of a search for the least extent.
pub fn outcome_text(alloc: Global, grid: u32, outcome: Outcome) -> Result<Vec<u8>, NoMemory>
    requires { IsPlanFile (file_for grid outcome) }
    ensures { IfOk result (λ text. text.items ≡ outcome_text grid outcome) }
{
    statement_text(alloc, &statement_for(alloc, grid, outcome))
}
