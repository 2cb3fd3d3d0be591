//! The text that tells what a search found: a plan file and the tree block behind it.
//!
//! `decision_text` gives the text of a decision of the whole plate, and `outcome_text` that of a search for the least extent, as
//! `specs/DecisionText.antt` spells them: the state, the plan where there is one, and the certificate or the open tree where one is due.
//! What a search answers has such a text (`a_decision_has_a_text`, `an_outcome_has_a_text`): the readers of plan files and of tree
//! blocks take back from it the file and the block that it was written of.
//!
//! It stands on the searches, for what they answer, and on the two texts that it joins. The top call prints by it.
#![tactic(auto)]

mod laws;
mod statement;
mod writing;

pub use laws::{a_decision_has_a_text, an_outcome_has_a_text};
pub use statement::Statement;
pub use writing::{decision_text, outcome_text};

#[cfg(test)]
mod tests;
