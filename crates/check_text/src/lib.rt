//! The line that tells what a check of a claim found.
//!
//! `check_text` gives the line of a judgement: that the claim passes, with the extent that it excludes, or its first fault, as
//! `specs/CheckText.antt` spells it. It stands on the judgement, and the top call prints by it.
#![tactic(auto)]

ghost use Rattle.std.specs.Prelude.{◌≡◌, ◌++◌, codes, IfOk, OnOk};
ghost use Rattle.check_text.specs.CheckText.{check_text, node_line, word_of};

use cert_checker::Rule;
use claim_checker::{Fault, Judgement};
use std::alloc::{AllocError, Global};
use text_lines::{put_line, put_number};

#[tactic(auto, unfolding(crate::specs::CheckText::word_of))]
fn word_of(rule: Rule) -> &'static [u8]
    ensures { result.now ≡ word_of rule }
{
    match rule {
        Rule::Pending => b"pending",
        Rule::Objects => b"objects",
        Rule::Contact => b"contact",
        Rule::Unordered => b"unordered",
        Rule::Children => b"children",
        Rule::Row => b"row",
        Rule::Sum => b"sum",
        Rule::Constant => b"constant",
        Rule::Cycle => b"cycle",
    }
}

fn put_word(to: &mut Vec<u8>, word: &[u8]) -> Result<(), AllocError>
    ensures { OnOk result (to.new.items ≡ to.old.items ++ (codes " " ++ (word.now ++ codes "\n"))) }
{
    to.extend_from_slice(b" ")?;
    to.extend_from_slice(word)?;
    to.extend_from_slice(b"\n")
}

// Appends the line of a node that breaks a rule.
#[tactic(auto, unfolding(crate::specs::CheckText::node_line))]
fn put_node(to: &mut Vec<u8>, number: u64, rule: Rule) -> Result<(), AllocError>
    ensures { OnOk result (to.new.items ≡ to.old.items ++ node_line number rule) }
{
    put_number(to, b"check fails node ", i128::from(number))?;
    put_word(to, word_of(rule))
}

/// The line of a judgement.
pub fn check_text(alloc: Global, judgement: Judgement) -> Result<Vec<u8>, AllocError>
    ensures { IfOk result (λ text. text.items ≡ check_text judgement) }
{
    let mut text = Vec::new(alloc);
    match judgement {
        Judgement::Passes(extent) => put_line(&mut text, b"check passes ", i128::from(extent))?,
        Judgement::Fails(Fault::State) => text.extend_from_slice(b"check fails state\n")?,
        Judgement::Fails(Fault::Grid) => text.extend_from_slice(b"check fails grid\n")?,
        Judgement::Fails(Fault::Plan) => text.extend_from_slice(b"check fails plan\n")?,
        Judgement::Fails(Fault::Excludes) => text.extend_from_slice(b"check fails excludes\n")?,
        Judgement::Fails(Fault::Node(number, rule)) => put_node(&mut text, number, rule)?,
    }
    Ok(text)
}

#[cfg(test)]
mod tests;
