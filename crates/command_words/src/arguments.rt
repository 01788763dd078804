//! The table of commands, as clap is told it: a simple command for each row.

ghost use Rattle.std.specs.Prelude.{◌≡◌, false, IfOk, codes};
ghost use Rattle.profile.specs.Limits.{most_cycles};
ghost use Rattle.clap.specs.Words.{app_of, rule_of};
ghost use Rattle.command_words.specs.Words.{argument_rule, counted_option, flag, needed, number_up_to, optional, source_word, verb_app};

use crate::table::{Argument, Source, Verb};
use clap::{Arg, ArgAction, Command, value_parser};
use std::alloc::{AllocError, Global};

/// A word that may be left out.
fn optional<'a>(alloc: Global, id: &'a str) -> Arg<'a>
    ensures rule { rule_of result ≡ optional id.entry.now }
    ensures local { result.global ≡ false }
{
    Arg::new(alloc, id)
}

/// A word that has to be there.
fn needed<'a>(alloc: Global, id: &'a str) -> Arg<'a>
    ensures rule { rule_of result ≡ needed id.entry.now }
    ensures local { result.global ≡ false }
{
    Arg::new(alloc, id).required(true)
}

/// An option that is there or not.
fn flag<'a>(alloc: Global, id: &'a str) -> Arg<'a>
    ensures rule { rule_of result ≡ flag id.entry.now }
    ensures local { result.global ≡ false }
{
    Arg::new(alloc, id).long(id).action(ArgAction::SetTrue)
}

/// `--tail N`.
fn tail<'a>(alloc: Global) -> Arg<'a>
    ensures rule { rule_of result ≡ counted_option 10000 (codes "tail") }
    ensures local { result.global ≡ false }
{
    Arg::new(alloc, "tail")
        .long("tail")
        .value_parser(value_parser!(u16).range(1..=10_000))
}

/// `NUMBER`.
fn number<'a>(alloc: Global) -> Arg<'a>
    ensures rule { rule_of result ≡ number_up_to 4294967295 (codes "number") }
    ensures local { result.global ≡ false }
{
    Arg::new(alloc, "number")
        .required(true)
        .value_parser(value_parser!(u32))
}

/// `AT`.
fn cycles<'a>(alloc: Global) -> Arg<'a>
    ensures rule { rule_of result ≡ number_up_to most_cycles (codes "at") }
    ensures local { result.global ≡ false }
{
    Arg::new(alloc, "at")
        .required(true)
        .value_parser(value_parser!(u16).range(0..=20_000))
}

/// The name of a file, which has to be there.
fn file<'a>(alloc: Global, source: Source) -> Arg<'a>
    ensures rule { rule_of result ≡ needed (source_word source) }
    ensures local { result.global ≡ false }
{
    let id: &'a str = source.word();
    needed(alloc, id)
}

/// The name of a file, which may be left out.
fn file_if<'a>(alloc: Global, source: Source) -> Arg<'a>
    ensures rule { rule_of result ≡ optional (source_word source) }
    ensures local { result.global ≡ false }
{
    let id: &'a str = source.word();
    optional(alloc, id)
}

/// An argument of a command.
fn argument<'a>(alloc: Global, argument: Argument) -> Arg<'a>
    ensures rule { rule_of result ≡ argument_rule argument }
    ensures local { result.global ≡ false }
{
    match argument {
        Argument::File(source) => file(alloc, source),
        Argument::FileIf(source) => file_if(alloc, source),
        Argument::Number => number(alloc),
        Argument::At => cycles(alloc),
        Argument::Tail => tail(alloc),
        Argument::Report => flag(alloc, "report"),
    }
}

/// A row of the table.
#[tactic(auto, unfolding(crate::specs::Words::verb_app))]
pub fn row<'a>(alloc: Global, verb: Verb) -> Result<Command<'a>, AllocError>
    ensures app { IfOk result (λ command. app_of command ≡ verb_app verb) }
{
    let word: &'a str = verb.word();
    let mut command = Command::new(alloc, word);
    let mut left = verb.arguments();
    while let Some((next, rest)) = left.split_first() {
        command = command.arg(argument(alloc, *next))?;
        left = rest;
    }
    Ok(command)
}
