ghost use Rattle.std.specs.Prelude.{◌≡◌, false, IfOk, codes, map};
ghost use Rattle.clap.specs.Words.{app_of, found_of, matches_of, rows_of, rule_of};
ghost use Rattle.ris_words.specs.Commands.{app_for, bare_app, option_rule, valued_rule};

use crate::options::{Name, Verb};
use clap::{Arg, ArgAction, ArgMatches, Command};
use ris_base::NoMemory;
use std::alloc::{AllocError, Global};

/// What clap finds in the words of a command, which passed the test of their form. So clap takes them, and its one error is
/// want of memory.
pub fn parse<'a>(
    alloc: Global,
    verb: Verb,
    words: &'a [&'a str],
) -> Result<ArgMatches<'a>, NoMemory>
    ensures { IfOk result (λ m. rows_of (found_of m) ≡ matches_of (app_for verb) (map (λ w. w.now) words.entry.now)) }
{
    let command = match command_for(alloc, verb) {
        Ok(command) => command,
        Err(_) => return Err(NoMemory),
    };
    match command.try_get_matches_from(words) {
        Ok(matches) => Ok(matches),
        Err(_) => Err(NoMemory),
    }
}

/// A command with its options.
fn command_for<'a>(alloc: Global, verb: Verb) -> Result<Command<'a>, AllocError>
    ensures { IfOk result (λ c. app_of c ≡ app_for verb) }
{
    match verb {
        Verb::Replay => bare(alloc, "replay")
            .arg(option(alloc, Name::Threads))?
            .arg(option(alloc, Name::Workers))?
            .arg(option(alloc, Name::Analyses)),
        Verb::Demo => bare(alloc, "demo")
            .arg(option(alloc, Name::Workers))?
            .arg(option(alloc, Name::Size)),
    }
}

/// A command without options, whose words begin behind its name.
fn bare<'a>(alloc: Global, name: &'a str) -> Command<'a>
    ensures { app_of result ≡ bare_app name.entry.now }
{
    Command::new(alloc, name)
        .no_binary_name(true)
        .disable_help_flag(true)
}

/// An option as clap has it.
fn option<'a>(alloc: Global, name: Name) -> Arg<'a>
    ensures rule { rule_of result ≡ option_rule name }
    ensures local { result.global ≡ false }
{
    match name {
        Name::Threads => Arg::new(alloc, "threads")
            .long("threads")
            .action(ArgAction::SetTrue),
        Name::Workers => valued(alloc, "workers"),
        Name::Size => valued(alloc, "size"),
        Name::Analyses => valued(alloc, "analyses"),
    }
}

/// An option that takes a value.
fn valued<'a>(alloc: Global, name: &'a str) -> Arg<'a>
    ensures rule { rule_of result ≡ valued_rule name.entry.now }
    ensures local { result.global ≡ false }
{
    Arg::new(alloc, name).long(name).action(ArgAction::Set)
}
