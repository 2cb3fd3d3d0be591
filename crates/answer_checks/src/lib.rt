//! What a search claims passes the judgement of claims.
//!
//! A text that says that there is no plan, or which extent is the least, holds a plan file and a block that pass: with the extent that
//! they exclude, whole plate or the extent below, 0 where nothing is excluded. That the readers take back this file and this block is
//! the law of `decision_text`.
//!
//! The law is the contract of a call that does nothing. It stands on the texts of what a search answers and on the judgement.
#![tactic(auto)]

ghost use Rattle.std.specs.Prelude.{ℕ, ◌-◌, Option};
ghost use Rattle.claim_checker.specs.Claims.{IsJudgement};
ghost use Rattle.claim_checker.specs.declared.verdict.Judgement.TheVariants.{Passes};
ghost use Rattle.decision_text.specs.DecisionText.{block_for, block_of, file_for, file_of};
ghost use Rattle.plate_shrink.specs.Outcomes.{IsOutcome};
ghost use Rattle.plate_shrink.specs.declared.outcome.Outcome.TheVariants.{Least, NoPlan};
ghost use Rattle.refinement_loop.specs.Decisions.{IsDecision};
ghost use Rattle.refinement_loop.specs.declared.deciding.Decision.TheVariants.{Refuted};
ghost use Rattle.seq_model.specs.declared.job.Job.{Job};
ghost use Rattle.seq_model.specs.declared.plan.Plan.{Plan};
ghost use Rattle.seq_model.specs.declared.tree.Tree.{Tree};

/// What is printed of a whole plate without a plan passes, and so does what is printed of a least extent.
pub fn what_a_search_claims_passes()
    ensures refuted { (job : Job) (budget : ℕ) (tree : Tree)
        → IsDecision job job.printer.grid budget (Refuted tree)
        → IsJudgement job (file_of job.printer.grid (Refuted tree)) (block_of job.printer.grid (Refuted tree))
        (Passes job.printer.grid) }
    ensures none { (job : Job) (budget : ℕ) (tree : Tree) → IsOutcome job budget (NoPlan tree)
        → IsJudgement job (file_for job.printer.grid (NoPlan tree)) (block_for job.printer.grid (NoPlan tree))
        (Passes job.printer.grid) }
    ensures least { (job : Job) (budget : ℕ) (plan : Plan) (e : ℕ) (tree : Option Tree)
        → IsOutcome job budget (Least plan e tree)
        → IsJudgement job (file_for job.printer.grid (Least plan e tree))
        (block_for job.printer.grid (Least plan e tree)) (Passes (e - 1)) }
{}
