ghost use Rattle.std.specs.Prelude.{◌≡◌, ◌≤◌, ◌⊎◌, length, Some, None, true, map, option_map, IfOk, IfErr};
ghost use Rattle.clap.specs.Words.{app_of, first_of, found_of, is_simple_and_free, rows_of};
ghost use Rattle.seq_words.specs.Usages.{label_of, is_given, rows_by, simple_command, text_of, texts, texts_of};
ghost use Rattle.seq_words.specs.Asked.{IsDue, budget_in, meshes_in};

use crate::command::{Opt, Words};
use crate::numbers::number_for;
use crate::usage::{Argument, Name, label, parser};
use clap::error::ErrorKind;
use clap::{ArgMatches, Command as Parser};
use owned_lists::{Items, Text};
use seq_limits::{MOST_NODES, MOST_OBJECTS, USUAL_NODES};
use std::alloc::Global;

/// What the command of this name, with these arguments, finds in the words.
pub(crate) fn found<'a>(
    alloc: Global,
    name: &'a str,
    usage: &[Argument],
    words: &'a [String],
) -> Result<ArgMatches<'a>, Words>
    requires { is_simple_and_free (simple_command name.now usage.now) ≡ true }
    ensures ok { IfOk result (λ m. rows_by (simple_command name.entry.now usage.now)
        (texts words.entry.now) ≡ Some (rows_of (found_of m))) }
    ensures err { IfErr result (λ e. (e ≡ Words.NoMemory)
        ⊎ ((e ≡ Words.Usage)
        × (rows_by (simple_command name.entry.now usage.now) (texts words.entry.now) ≡ None))) }
{
    parsed(parser(alloc, name, usage)?, words)
}

fn parsed<'a>(command: Parser<'a>, words: &'a [String]) -> Result<ArgMatches<'a>, Words>
    requires { is_simple_and_free (app_of command) ≡ true }
    ensures ok { IfOk result (λ m. rows_by (app_of command.entry) (texts words.entry.now)
        ≡ Some (rows_of (found_of m))) }
    ensures err { IfErr result (λ e. (e ≡ Words.NoMemory)
        ⊎ ((e ≡ Words.Usage) × (rows_by (app_of command.entry) (texts words.entry.now) ≡ None))) }
{
    match command.try_get_matches_from(words) {
        Ok(matches) => Ok(matches),
        Err(error) => Err(refusal(error.kind())),
    }
}

// Want of memory is no fault of the words.
fn refusal(kind: ErrorKind) -> Words
    ensures memory { kind ≡ ErrorKind.OutOfMemory → result ≡ Words.NoMemory }
    ensures only { result ≡ Words.NoMemory → kind ≡ ErrorKind.OutOfMemory }
    ensures two { (result ≡ Words.NoMemory) ⊎ (result ≡ Words.Usage) }
{
    match kind {
        ErrorKind::OutOfMemory => Words::NoMemory,
        _ => Words::Usage,
    }
}

/// The text of an option or of a positional, if there is one.
pub(crate) fn given<'a>(matches: &ArgMatches<'a>, name: Name) -> Option<&'a str>
    ensures { option_map (λ s. s.now) result ≡ first_of (label_of name)
        (rows_of (found_of matches.now)) }
{
    matches.get_str(label(name))
}

/// The text of a positional.
pub(crate) fn word<'a>(matches: &ArgMatches<'a>, name: Name) -> &'a str
    ensures { result.now ≡ text_of name (rows_of (found_of matches.now)) }
{
    match given(matches, name) {
        Some(text) => text,
        None => "",
    }
}

/// The text of a positional, owned.
pub(crate) fn text<'a>(alloc: Global, matches: &ArgMatches<'a>, name: Name) -> Result<Text, Words>
    ensures ok { IfOk result (λ text. text ≡ text_of name (rows_of (found_of matches.now))) }
    ensures err { IfErr result (λ e. e ≡ Words.NoMemory) }
{
    match Text::from_str(alloc, word(matches, name)) {
        Ok(text) => Ok(text),
        Err(_) => Err(Words::NoMemory),
    }
}

/// Whether a flag was given.
pub(crate) fn is_on<'a>(matches: &ArgMatches<'a>, name: Name) -> bool
    ensures { result ≡ is_given name (rows_of (found_of matches.now)) }
{
    word(matches, name) == "true"
}

/// The value of `--budget`, or the default.
pub(crate) fn budget<'a>(matches: &ArgMatches<'a>) -> Result<u64, Words>
    ensures value { result ≡ budget_in (rows_of (found_of matches.now)) }
    ensures limits { IfOk result (λ n. (1 ≤ n) × (n ≤ MOST_NODES)) }
{
    match given(matches, Name::Budget) {
        Some(text) => number_for(Opt::Budget, 1, MOST_NODES, text),
        None => Ok(USUAL_NODES),
    }
}

#[tactic(auto, using(std::proofs::lemmas::List::drop_more))]
fn copies<'a>(alloc: Global, list: &[&'a str]) -> Result<Items<Text>, Words>
    ensures ok { IfOk result (λ copies. copies ≡ map (λ s. s.now) list.now) }
    ensures err { IfErr result (λ e. e ≡ Words.NoMemory) }
{
    let mut copies = Items::new(alloc);
    for text in list.iter() {
        let Ok(copy) = Text::from_str(alloc, text) else {
            return Err(Words::NoMemory);
        };
        if copies.push(copy).is_err() {
            return Err(Words::NoMemory);
        }
    }
    Ok(copies)
}

fn several<'a>(alloc: Global, matches: &ArgMatches<'a>, name: Name) -> Result<Items<Text>, Words>
    ensures ok { IfOk result (λ texts. texts ≡ texts_of name (rows_of (found_of matches.now))) }
    ensures err { IfErr result (λ e. e ≡ Words.NoMemory) }
{
    match matches.get_raw(label(name)) {
        Some(list) => copies(alloc, list),
        None => Ok(Items::new(alloc)),
    }
}

/// The names of the meshes.
pub(crate) fn meshes<'a>(alloc: Global, matches: &ArgMatches<'a>) -> Result<Items<Text>, Words>
    ensures ok { IfOk result (λ meshes. meshes_in (rows_of (found_of matches.now)) ≡ Ok meshes) }
    ensures limits { IfOk result (λ meshes. length meshes ≤ MOST_OBJECTS) }
    ensures err { IfErr result (IsDue (meshes_in (rows_of (found_of matches.now)))) }
{
    let meshes = several(alloc, matches, Name::Stl)?;
    if meshes.len() > MOST_OBJECTS {
        return Err(Words::TooMany);
    }
    Ok(meshes)
}
