ghost use Rattle.std.specs.Prelude.{◌≡◌, false, IfOk, IfErr};
ghost use Rattle.clap.specs.Words.{app_of, with_rule, rule_of as clap_rule};
ghost use Rattle.seq_words.specs.Usages.{label_of, rule_of, simple_command};

use crate::command::Words;
use clap::{Arg, ArgAction, Command as Parser};
use std::alloc::Global;

/// What an argument is called.
#[derive(Clone, Copy)]
pub enum Name {
    Least,
    Strict,
    Budget,
    Printer,
    Plan,
    Stl,
    K,
    N,
}

/// An argument of a command.
#[derive(Clone, Copy)]
pub enum Argument {
    /// `[--NAME]`
    Flag(Name),
    /// `[--NAME TEXT]`
    Value(Name),
    /// `NAME`
    One(Name),
    /// `NAME..`, the last one: one or more texts
    Several(Name),
}

/// `arrange [--least] [--budget B] [--strict] PRINTER STL..`
pub const ARRANGE: &[Argument] = &[
    Argument::Flag(Name::Least),
    Argument::Value(Name::Budget),
    Argument::Flag(Name::Strict),
    Argument::One(Name::Printer),
    Argument::Several(Name::Stl),
];

/// `check PRINTER PLAN STL..`
pub const CHECK: &[Argument] = &[
    Argument::One(Name::Printer),
    Argument::One(Name::Plan),
    Argument::Several(Name::Stl),
];

/// `audit PRINTER PLAN STL..`
pub const AUDIT: &[Argument] = &[
    Argument::One(Name::Printer),
    Argument::One(Name::Plan),
    Argument::Several(Name::Stl),
];

/// `slices PRINTER STL`
pub const SLICES: &[Argument] = &[Argument::One(Name::Printer), Argument::One(Name::Stl)];

/// `trial K N`
pub const TRIAL: &[Argument] = &[Argument::One(Name::K), Argument::One(Name::N)];

/// The name as the user knows it, an option's without its dashes.
pub(crate) fn label<'a>(name: Name) -> &'a str
    ensures { result.now ≡ label_of name }
{
    match name {
        Name::Least => "least",
        Name::Strict => "strict",
        Name::Budget => "budget",
        Name::Printer => "PRINTER",
        Name::Plan => "PLAN",
        Name::Stl => "STL",
        Name::K => "K",
        Name::N => "N",
    }
}

fn rule<'a>(alloc: Global, argument: Argument) -> Arg<'a>
    ensures rule { clap_rule result ≡ rule_of argument }
    ensures local { result.global ≡ false }
{
    match argument {
        Argument::Flag(name) => Arg::new(alloc, label(name))
            .long(label(name))
            .action(ArgAction::SetTrue),
        Argument::Value(name) => Arg::new(alloc, label(name))
            .long(label(name))
            .action(ArgAction::Set),
        Argument::One(name) => Arg::new(alloc, label(name))
            .required(true)
            .action(ArgAction::Set),
        Argument::Several(name) => Arg::new(alloc, label(name))
            .required(true)
            .action(ArgAction::Append)
            .num_args(1..),
    }
}

fn with_argument<'a>(
    alloc: Global,
    command: Parser<'a>,
    argument: Argument,
) -> Result<Parser<'a>, Words>
    ensures ok { IfOk result (λ more. app_of more ≡ with_rule (app_of command.entry) (rule_of argument)) }
    ensures err { IfErr result (λ e. e ≡ Words.NoMemory) }
{
    match command.arg(rule(alloc, argument)) {
        Ok(more) => Ok(more),
        Err(_) => Err(Words::NoMemory),
    }
}

/// clap's command of this name with just these arguments.
#[tactic(auto, using(std::proofs::lemmas::List::drop_more), unfolding(crate::specs::Usages::simple_command))]
pub(crate) fn parser<'a>(
    alloc: Global,
    name: &'a str,
    usage: &[Argument],
) -> Result<Parser<'a>, Words>
    ensures ok { IfOk result (λ command. app_of command ≡ simple_command name.entry.now usage.now) }
    ensures err { IfErr result (λ e. e ≡ Words.NoMemory) }
{
    let mut command = Parser::new(alloc, name);
    for argument in usage {
        command = with_argument(alloc, command, *argument)?;
    }
    Ok(command)
}
