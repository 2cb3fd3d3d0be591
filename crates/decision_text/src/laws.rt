ghost use Rattle.std.specs.Prelude.{ℕ};
ghost use Rattle.decision_text.specs.DecisionText.{IsTextOf, decision_text, outcome_text, statement_for, statement_of};
ghost use Rattle.plate_shrink.specs.Outcomes.{IsOutcome};
ghost use Rattle.plate_shrink.specs.declared.outcome.Outcome.{Outcome};
ghost use Rattle.refinement_loop.specs.Decisions.{IsDecision};
ghost use Rattle.refinement_loop.specs.declared.deciding.Decision.{Decision};
ghost use Rattle.seq_model.specs.declared.job.Job.{Job};

/// What a search of the whole plate answers has a text, from which the readers take back what it states.
pub fn a_decision_has_a_text()
    ensures { (job : Job) (budget : ℕ) (d : Decision) → IsDecision job job.printer.grid budget d
        → IsTextOf (decision_text job.printer.grid d) (statement_of job.printer.grid d) }
{}

/// So has what a search for the least extent answers.
pub fn an_outcome_has_a_text()
    ensures { (job : Job) (budget : ℕ) (outcome : Outcome) → IsOutcome job budget outcome
        → IsTextOf (outcome_text job.printer.grid outcome) (statement_for job.printer.grid outcome) }
{}
