//! The words of the command line, read by one simple command of `clap`.
ghost use Rattle.std.specs.Prelude.{◌≡◌, ℕ, List, Err, IfOk, codes, true, false};
ghost use Rattle.clap.specs.Words.{app_of, rule_of, first_value, found_of};
ghost use Rattle.main_words.specs.Profile.{option_rule, flag_rule, place_rule, drill_rule, bare_app};
ghost use Rattle.main_words.specs.Profile.{with_options, with_flags, with_folders, mc_app, are_read};
ghost use Rattle.main_words.specs.Profile.{value_in, has_flag, is_true_text, IsValueOf};

use crate::words::WordsError;
use clap::error::ErrorKind;
use clap::{Arg, ArgAction, ArgMatches, Command};
use mc_text::Text;
use std::alloc::{AllocError, Global};

/// The values that the words give.
#[derive(Debug, Drop)]
pub struct Given<'a> {
    pub view: Option<&'a str>,
    pub edit: Option<&'a str>,
    pub place: Option<&'a str>,
    pub drill: Option<&'a str>,
    pub left: Option<&'a str>,
    pub right: Option<&'a str>,
    pub wants_version: bool,
    pub wants_help: bool,
}

/// Reads the words by the command alone; what the values mean isn't asked.
pub fn given_by<'a>(alloc: Global, words: &'a [Text]) -> Result<Given<'a>, WordsError>
    ensures read { IfOk result (λ _. are_read words.entry.now ≡ true) }
    ensures usage { result ≡ Err WordsError.Usage → are_read words.entry.now ≡ false }
    ensures options { IfOk result (λ given. IsValueOf words.entry.now (codes "view") given.view
        × IsValueOf words.entry.now (codes "edit") given.edit
        × IsValueOf words.entry.now (codes "place") given.place
        × IsValueOf words.entry.now (codes "drill") given.drill) }
    ensures folders { IfOk result (λ given. IsValueOf words.entry.now (codes "left") given.left
        × IsValueOf words.entry.now (codes "right") given.right) }
    ensures flags { IfOk result (λ given. (given.wants_version ≡ has_flag words.entry.now (codes "version"))
        × (given.wants_help ≡ has_flag words.entry.now (codes "help"))) }
{
    let matches = parse(alloc, words)?;
    Ok(Given {
        view: matches.get_str("view"),
        edit: matches.get_str("edit"),
        place: matches.get_str("place"),
        drill: matches.get_str("drill"),
        left: matches.get_str("left"),
        right: matches.get_str("right"),
        wants_version: is_set(&matches, "version"),
        wants_help: is_set(&matches, "help"),
    })
}

/// What `clap` makes of the words.
fn parse<'a>(alloc: Global, words: &'a [Text]) -> Result<ArgMatches<'a>, WordsError>
    ensures read { IfOk result (λ _. are_read words.entry.now ≡ true) }
    ensures usage { result ≡ Err WordsError.Usage → are_read words.entry.now ≡ false }
    ensures rows { IfOk result
        (λ matches. (id : List ℕ) → first_value (found_of matches) id ≡ value_in words.entry.now id) }
{
    let Ok(command) = mc_command(alloc) else {
        return Err(WordsError::Memory);
    };
    match command.try_get_matches_from(words) {
        Ok(matches) => Ok(matches),
        Err(error) => match error.kind() {
            ErrorKind::OutOfMemory => Err(WordsError::Memory),
            _ => Err(WordsError::Usage),
        },
    }
}

/// Whether the flag was given.
fn is_set(matches: &ArgMatches<'_>, id: &str) -> bool
    ensures { result ≡ is_true_text (first_value (found_of matches.now) id.now) }
{
    match matches.get_str(id) {
        Some(text) => text == "true",
        None => false,
    }
}

/// The command of the program.
fn mc_command<'a>(alloc: Global) -> Result<Command<'a>, AllocError>
    ensures { IfOk result (λ command. app_of command ≡ mc_app) }
{
    let command = add_options(alloc, bare(alloc))?;
    let command = add_flags(alloc, command)?;
    add_folders(alloc, command)
}

fn bare<'a>(alloc: Global) -> Command<'a>
    ensures { app_of result ≡ bare_app }
{
    Command::new(alloc, "mc")
        .no_binary_name(true)
        .disable_help_flag(true)
        .disable_version_flag(true)
}

fn add_options<'a>(alloc: Global, command: Command<'a>) -> Result<Command<'a>, AllocError>
    ensures { IfOk result (λ added. app_of added ≡ with_options (app_of command.entry)) }
{
    command
        .arg(option(alloc, "view", 'v'))?
        .arg(option(alloc, "edit", 'e'))?
        .arg(option(alloc, "place", 'P'))?
        .arg(drill(alloc))
}

fn add_flags<'a>(alloc: Global, command: Command<'a>) -> Result<Command<'a>, AllocError>
    ensures { IfOk result (λ added. app_of added ≡ with_flags (app_of command.entry)) }
{
    command
        .arg(flag(alloc, "black", 'b'))?
        .arg(flag(alloc, "version", 'V'))?
        .arg(flag(alloc, "help", 'h'))
}

fn add_folders<'a>(alloc: Global, command: Command<'a>) -> Result<Command<'a>, AllocError>
    ensures { IfOk result (λ added. app_of added ≡ with_folders (app_of command.entry)) }
{
    command
        .arg(place(alloc, "left"))?
        .arg(place(alloc, "right"))
}

fn option<'a>(alloc: Global, id: &'a str, short: char) -> Arg<'a>
    ensures rule { rule_of result ≡ option_rule id.entry.now short }
    ensures local { result.global ≡ false }
{
    Arg::new(alloc, id).short(short).action(ArgAction::Set)
}

fn flag<'a>(alloc: Global, id: &'a str, short: char) -> Arg<'a>
    ensures rule { rule_of result ≡ flag_rule id.entry.now short }
    ensures local { result.global ≡ false }
{
    Arg::new(alloc, id).short(short).action(ArgAction::SetTrue)
}

fn place<'a>(alloc: Global, id: &'a str) -> Arg<'a>
    ensures rule { rule_of result ≡ place_rule id.entry.now }
    ensures local { result.global ≡ false }
{
    Arg::new(alloc, id).action(ArgAction::Set)
}

fn drill<'a>(alloc: Global) -> Arg<'a>
    ensures rule { rule_of result ≡ drill_rule }
    ensures local { result.global ≡ false }
{
    Arg::new(alloc, "drill")
        .long("drill")
        .action(ArgAction::Set)
}
