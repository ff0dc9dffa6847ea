//! The commands as `clap` is told of them.
ghost use Rattle.std.specs.Prelude.{◌≡◌, IfOk, false, [], ◌∷◌, map};
ghost use Rattle.clap.specs.Words.{app_of, rule_of};
ghost use Rattle.hub_words.specs.Forms.{app_for, check_form, forms, has_globals, leaf_for, optional};
ghost use Rattle.hub_words.specs.Forms.{replay_form, required, rule_for, top_app, wanting};

use clap::{Arg, ArgAction, Command};
use std::alloc::{AllocError, Global};

/// The words of `board`.
const BOARD_WORDS: [&str; 7] = [
    "config", "schedule", "stop", "moment", "span", "limit", "format",
];

/// The words of `gen`.
const GEN_WORDS: [&str; 3] = ["seed", "trips", "messages"];

/// The parser of all commands. They have no flags, so that there is no help either.
pub(crate) fn parser<'a>(alloc: Global) -> Result<Command<'a>, AllocError>
    ensures { IfOk result (λ parser. app_of parser ≡ app_for forms) }
{
    replay_and_check(alloc)?
        .subcommand(wanting(alloc, "board", &BOARD_WORDS)?)?
        .subcommand(wanting(alloc, "gen", &GEN_WORDS)?)
}

/// The program with these two commands.
fn replay_and_check<'a>(alloc: Global) -> Result<Command<'a>, AllocError>
    ensures { IfOk result (λ parser. app_of parser ≡ app_for (replay_form ∷ check_form ∷ [])) }
{
    top(alloc)
        .subcommand(replay(alloc)?)?
        .subcommand(wanting(alloc, "check", &["config"])?)
}

/// The program without its commands.
fn top<'a>(alloc: Global) -> Command<'a>
    ensures { app_of result ≡ top_app }
{
    Command::new(alloc, "hub")
        .no_binary_name(true)
        .disable_help_flag(true)
        .disable_help_subcommand(true)
        .subcommand_required(true)
}

/// The replay, with a configuration or without.
fn replay<'a>(alloc: Global) -> Result<Command<'a>, AllocError>
    ensures shape { IfOk result (λ command. app_of command ≡ leaf_for replay_form) }
    ensures local { IfOk result (λ command. has_globals command ≡ false) }
{
    Command::new(alloc, "replay").arg(optional(alloc, "config"))
}

/// A command of that name which wants words under these ids, all of them.
fn wanting<'a>(alloc: Global, name: &'a str, ids: &[&'a str]) -> Result<Command<'a>, AllocError>
    ensures shape { IfOk result (λ command.
        app_of command ≡ leaf_for (wanting name.entry.now (map (λ id. id.now) ids.entry.now))) }
    ensures local { IfOk result (λ command. has_globals command ≡ false) }
{
    let mut command = Command::new(alloc, name);
    for id in ids {
        command = command.arg(required(alloc, id))?;
    }
    Ok(command)
}

/// A word that a command may have in its place.
fn optional<'a>(alloc: Global, id: &'a str) -> Arg<'a>
    ensures rule { rule_of result ≡ rule_for (optional id.entry.now) }
    ensures local { result.global ≡ false }
{
    Arg::new(alloc, id).action(ArgAction::Set)
}

/// A word that a command wants in its place.
fn required<'a>(alloc: Global, id: &'a str) -> Arg<'a>
    ensures rule { rule_of result ≡ rule_for (required id.entry.now) }
    ensures local { result.global ≡ false }
{
    optional(alloc, id).required(true)
}
