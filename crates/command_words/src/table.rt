//! The table of commands: a row for each, with its word, and with its files and options in their order.

ghost use Rattle.std.specs.Prelude.{◌≡◌, true, IfSome};
ghost use Rattle.clap.specs.Words.{is_simple_and_free};
ghost use Rattle.command_words.specs.Words.{arguments_of, is_named, limit_of, needs_threads, source_word, usage, verb_app, verb_named, verb_word};

/// The files that a command reads.
#[derive(Clone, Copy, PartialEq, Eq, Debug)]
pub enum Source {
    System,
    Steps,
    Requests,
    Plan,
    Wishes,
    Log,
    Streams,
}

impl Source {
    /// The greatest number of bytes of the file.
    pub fn limit(self) -> usize
        ensures limit { result ≡ limit_of self }
    {
        match self {
            Source::System => 4_194_304,
            Source::Steps => 4_194_304,
            Source::Requests => 4_194_304,
            Source::Plan => 4_194_304,
            Source::Wishes => 4_194_304,
            Source::Log => 134_217_728,
            Source::Streams => 4_194_304,
        }
    }

    /// The word for the file.
    pub fn word(self) -> &'static str
        ensures word { result.now ≡ source_word self }
    {
        match self {
            Source::System => "system",
            Source::Steps => "steps",
            Source::Requests => "requests",
            Source::Plan => "plan",
            Source::Wishes => "wishes",
            Source::Log => "log",
            Source::Streams => "streams",
        }
    }
}

/// What a command has after its word.
#[derive(Clone, Copy, PartialEq, Eq, Debug)]
pub enum Argument {
    /// The name of a file.
    File(Source),
    /// The name of a file, or nothing.
    FileIf(Source),
    /// `NUMBER`, from 0 to 4,294,967,295.
    Number,
    /// `AT`, a number of cycles from 0 to 20,000.
    At,
    /// `--tail N`, from 1 to 10,000.
    Tail,
    /// `--report`.
    Report,
}

/// What is to be done.
#[derive(Clone, Copy, PartialEq, Eq, Debug)]
pub enum Verb {
    /// To run the steps, and to write the log, or so many of its last rows.
    Replay,
    /// To run the steps, and to write the plan of the table that stands then.
    Admit,
    /// To check a plan against the changes of the steps.
    Check,
    /// To run the input that a number makes, and to write a summary.
    Generate,
    /// To run the steps by threads, and to write the log.
    Live,
    /// To say of the log whether it can be that of a run of the steps.
    Audit,
    /// To run the steps, to have the standby take over after so many opened cycles, and to write the log.
    Handover,
    /// To run the steps without asynchronous requests, with the requests of a streams file in the frames of polled
    /// slots, and to write the log and what became of each request.
    Poll,
    /// To run the steps, and to choose the periods of a wish then.
    Elastic,
}

/// All commands, in the order of their usage lines.
const VERBS: &[Verb] = &[
    Verb::Replay,
    Verb::Admit,
    Verb::Check,
    Verb::Generate,
    Verb::Live,
    Verb::Audit,
    Verb::Handover,
    Verb::Poll,
    Verb::Elastic,
];

/// The lines that say which words a call may have.
const USAGE: &str = "\
usage: fttcan replay SYSTEM STEPS [REQUESTS] [--tail N] [--report]
usage: fttcan admit SYSTEM STEPS
usage: fttcan check SYSTEM STEPS PLAN
usage: fttcan gen NUMBER
usage: fttcan live SYSTEM STEPS [REQUESTS] [--report]
usage: fttcan audit SYSTEM STEPS LOG [REQUESTS]
usage: fttcan handover SYSTEM STEPS AT [REQUESTS]
usage: fttcan poll SYSTEM STEPS STREAMS
usage: fttcan elastic SYSTEM STEPS WISHES
";

impl Verb {
    /// Its word, which is the first one of a call.
    pub fn word(self) -> &'static str
        ensures word { result.now ≡ verb_word self }
    {
        match self {
            Verb::Replay => "replay",
            Verb::Admit => "admit",
            Verb::Check => "check",
            Verb::Generate => "gen",
            Verb::Live => "live",
            Verb::Audit => "audit",
            Verb::Handover => "handover",
            Verb::Poll => "poll",
            Verb::Elastic => "elastic",
        }
    }

    /// What follows its word. The files are fetched in this order.
    pub fn arguments(self) -> &'static [Argument]
        ensures arguments { result.now ≡ arguments_of self }
    {
        use Argument::{At, File, FileIf, Number, Report, Tail};
        use Source::{Log, Plan, Requests, Steps, Streams, System, Wishes};

        match self {
            Verb::Replay => &[File(System), File(Steps), FileIf(Requests), Tail, Report],
            Verb::Admit => &[File(System), File(Steps)],
            Verb::Check => &[File(System), File(Steps), File(Plan)],
            Verb::Generate => &[Number],
            Verb::Live => &[File(System), File(Steps), FileIf(Requests), Report],
            Verb::Audit => &[File(System), File(Steps), File(Log), FileIf(Requests)],
            Verb::Handover => &[File(System), File(Steps), At, FileIf(Requests)],
            Verb::Poll => &[File(System), File(Steps), File(Streams)],
            Verb::Elastic => &[File(System), File(Steps), File(Wishes)],
        }
    }

    /// Whether it is carried out by threads.
    pub fn needs_threads(self) -> bool
        ensures threads { result ≡ needs_threads self }
    {
        match self {
            Verb::Live => true,
            _ => false,
        }
    }

    /// Whether it has this word, and is carried out by threads or not.
    fn is_named(self, threads: bool, name: &str) -> bool
        ensures named { result ≡ is_named threads name.now self }
        ensures carried { result ≡ true → needs_threads self ≡ threads }
    {
        self.needs_threads() == threads && self.word() == name
    }

    /// The command with this word, of those that are carried out by threads or of the others.
    pub fn named(threads: bool, name: &str) -> Option<Verb>
        ensures verb { result ≡ verb_named threads name.now }
        ensures carried { IfSome result (λ verb. needs_threads verb ≡ threads) }
        // Of its row clap's contract is exact.
        ensures simple { IfSome result (λ verb. is_simple_and_free (verb_app verb) ≡ true) }
    {
        let mut left = VERBS;
        while let Some((verb, rest)) = left.split_first() {
            if verb.is_named(threads, name) {
                return Some(*verb);
            }
            left = rest;
        }
        None
    }
}

/// The lines that say which words a call may have, a line for each row of the table.
#[tactic(auto, unfolding(crate::specs::Words::usage))]
pub fn usage() -> &'static str
    ensures usage { result.now ≡ usage }
{
    USAGE
}
