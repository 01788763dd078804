//! The words of a call, which say what is asked.

ghost use Rattle.std.specs.Prelude.{◌≡◌, ◌⊎◌, ◌++◌, ◌∷◌, codes, unwrap_or, [], Some, true, IfOk, IfErr, OnOk, map, option_map, string_bytes};
ghost use Rattle.clap.specs.Words.{fault_of, app_of, first_of, found_of, is_simple_and_free, matches_of, rows_of};
ghost use Rattle.command_words.specs.Words.{IsOfRow, command_by, command_meant, file_of, is_set, needs_threads, number_of, taken_by, verb_app, with_argument, word_of};
ghost use Rattle.command_words.specs.WordsRead.{ExplainsWords, command_read, named};

use crate::arguments::row;
use crate::table::{Argument, Source, Verb};
use clap::ArgMatches;
use clap::error::ErrorKind;
use std::alloc::{AllocError, Global};

/// A file that the words name.
#[derive(Clone, Copy)]
pub struct NamedFile<'a> {
    pub source: Source,
    pub name: &'a str,
}

/// What the words of a call ask for.
#[derive(Drop)]
pub struct Command<'a> {
    pub verb: Verb,
    /// The files that the words name, in the order in which they are fetched.
    pub files: Vec<NamedFile<'a>>,
    /// The number of an input, or the number of opened cycles before a handover, at most 20,000. It is 0 for other
    /// commands.
    pub number: u32,
    /// How many of the last rows of a log are asked for, from 1 to 10,000.
    pub tail: Option<u16>,
    /// Whether the report of a run is asked for.
    pub report: bool,
}

/// Why words ask for nothing.
#[derive(Clone, Copy, PartialEq, Eq, Debug)]
pub enum WordsFault {
    /// They are in no row of the table of commands.
    NoCommand,
    /// Memory ran out.
    Memory,
}

impl From<AllocError> for WordsFault {
    ghost use Rattle.std.specs.Prelude.{◌≡◌};
    ghost use Rattle.command_words.specs.declared.words.WordsFault.TheVariants.{Memory};

    ghost from_gives = { λ _ why. why ≡ Memory };

    fn from(_error: AllocError) -> WordsFault {
        WordsFault::Memory
    }
}

/// What clap's command makes of the words.
fn parsed<'a>(command: clap::Command<'a>, words: &'a [String]) -> Result<ArgMatches<'a>, WordsFault>
    requires simple { is_simple_and_free (app_of command) ≡ true }
    ensures taken { IfOk result
        (λ matches. fault_of (app_of command.entry) (map string_bytes words.entry.now) ≡ []) }
    ensures rows { IfOk result (λ matches. rows_of (found_of matches)
        ≡ matches_of (app_of command.entry) (map string_bytes words.entry.now)) }
    ensures stop { IfErr result (λ why. (why ≡ WordsFault.Memory)
        ⊎ ((why ≡ WordsFault.NoCommand)
        × (fault_of (app_of command.entry) (map string_bytes words.entry.now) ≡ [] → ⊥))) }
{
    match command.try_get_matches_from(words) {
        Ok(matches) => Ok(matches),
        Err(error) => {
            if error.kind() == ErrorKind::OutOfMemory {
                Err(WordsFault::Memory)
            } else {
                Err(WordsFault::NoCommand)
            }
        }
    }
}

/// The word of an argument, where it is there.
fn word<'a>(matches: &ArgMatches<'a>, id: &str) -> Option<&'a str>
    ensures word { option_map (λ word. word.now) result ≡ first_of id.now (rows_of (found_of matches.now)) }
{
    matches.get_str(id)
}

/// The word of an argument that has to be there.
fn needed_word<'a>(matches: &ArgMatches<'a>, id: &str) -> &'a str
    ensures word { result.now ≡ word_of id.now (rows_of (found_of matches.now)) }
{
    match word(matches, id) {
        Some(word) => word,
        None => "",
    }
}

/// Whether an option is there.
fn is_set(matches: &ArgMatches<'_>, id: &str) -> bool
    ensures set { result ≡ is_set id.now (rows_of (found_of matches.now)) }
{
    matches.get_one::<bool>(id).unwrap_or(false)
}

/// The number of `--tail`, where it is there.
fn tail(matches: &ArgMatches<'_>) -> Option<u16>
    ensures tail { result ≡ number_of 16 (codes "tail") (rows_of (found_of matches.now)) }
{
    matches.get_one::<u16>("tail")
}

/// The number of an input.
fn number(matches: &ArgMatches<'_>) -> u32
    ensures number { result ≡ unwrap_or (number_of 32 (codes "number") (rows_of (found_of matches.now))) 0 }
{
    matches.get_one::<u32>("number").unwrap_or(0)
}

/// The number of cycles before a handover.
fn cycles(matches: &ArgMatches<'_>) -> u16
    ensures cycles { result ≡ unwrap_or (number_of 16 (codes "at") (rows_of (found_of matches.now))) 0 }
{
    matches.get_one::<u16>("at").unwrap_or(0)
}

/// Adds a file of this kind and name.
fn push_file<'a>(
    files: &mut Vec<NamedFile<'a>>,
    source: Source,
    name: &'a str,
) -> Result<(), AllocError>
    ensures files { OnOk result
        (map named files.new.items ≡ map named files.old.items ++ file_of source name.entry.now ∷ []) }
{
    files.push(NamedFile { source, name })?;
    Ok(())
}

/// Adds what the words say at an argument of the command.
fn read_argument<'a>(
    matches: &ArgMatches<'a>,
    argument: Argument,
    command: &mut Command<'a>,
) -> Result<(), AllocError>
    ensures read { OnOk result (command_read command.new
        ≡ with_argument (rows_of (found_of matches.now)) (command_read command.old) argument) }
{
    match argument {
        Argument::File(source) => {
            let name = needed_word(matches, source.word());
            push_file(&mut command.files, source, name)
        }
        Argument::FileIf(source) => match word(matches, source.word()) {
            Some(name) => push_file(&mut command.files, source, name),
            None => Ok(()),
        },
        Argument::Number => {
            command.number = number(matches);
            Ok(())
        }
        Argument::At => {
            command.number = u32::from(cycles(matches));
            Ok(())
        }
        Argument::Tail => {
            command.tail = tail(matches);
            Ok(())
        }
        Argument::Report => {
            command.report = is_set(matches, "report");
            Ok(())
        }
    }
}

/// What the words that clap took ask for.
#[tactic(auto, unfolding(crate::specs::Words::command_meant))]
fn read_command<'a>(
    alloc: Global,
    verb: Verb,
    matches: &ArgMatches<'a>,
) -> Result<Command<'a>, AllocError>
    ensures command { IfOk result
        (λ command. command_read command ≡ command_meant verb (rows_of (found_of matches.now))) }
{
    let mut command = Command {
        verb,
        files: Vec::new(alloc),
        number: 0,
        tail: None,
        report: false,
    };
    let mut left = verb.arguments();
    while let Some((argument, rest)) = left.split_first() {
        read_argument(matches, *argument, &mut command)?;
        left = rest;
    }
    Ok(command)
}

/// What the words of this command ask for.
fn command_named(alloc: Global, verb: Verb, words: &[String]) -> Result<Command<'_>, WordsFault>
    requires simple { is_simple_and_free (verb_app verb) ≡ true }
    ensures ok { IfOk result (λ command. Some (command_read command)
        ≡ taken_by (verb_app verb) (command_meant verb) (map string_bytes words.now)) }
    ensures row { IfOk result (λ command. IsOfRow command.verb (command_read command)) }
    ensures verb { IfOk result (λ command. command.verb ≡ verb) }
    ensures stop { IfErr result
        (ExplainsWords (taken_by (verb_app verb) (command_meant verb) (map string_bytes words.now))) }
{
    let command = row(alloc, verb)?;
    let matches = parsed(command, words)?;
    let command = read_command(alloc, verb, &matches)?;
    Ok(command)
}

/// What the words ask for, of what is carried out by threads or of the rest.
///
/// # Errors
///
/// `NoCommand` where the words are in no such row of the table, and `Memory`.
pub fn command_in(alloc: Global, threads: bool, words: &[String]) -> Result<Command<'_>, WordsFault>
    ensures ok { IfOk result
        (λ command. Some (command_read command) ≡ command_by threads (map string_bytes words.now)) }
    ensures row { IfOk result (λ command. IsOfRow command.verb (command_read command)) }
    ensures carried { IfOk result (λ command. needs_threads command.verb ≡ threads) }
    ensures stop { IfErr result (ExplainsWords (command_by threads (map string_bytes words.now))) }
{
    let Some(name) = words.first() else {
        return Err(WordsFault::NoCommand);
    };
    match Verb::named(threads, name.as_str()) {
        Some(verb) => command_named(alloc, verb, words),
        None => Err(WordsFault::NoCommand),
    }
}
