//! What was read of the files of a command.

ghost use Rattle.std.specs.Prelude.{◌≡◌};
ghost use Rattle.asked_files.specs.Inputs.{nothing_read, owners_in, slots_in, with_content};

use async_window::Owner;
use elastic::Wish;
use items::Items;
use plan_check::Certificate;
use requests_file::RequestList;
use sporadic_poll::Stream;
use steps_file::StepList;
use system_file::System;

/// The requests of polled slots, in the order of their file.
pub type StreamList = Items<Stream>;

/// The bytes of a log.
pub type LogText = Items<u8>;

/// What a file of a command holds.
#[derive(Debug, Drop)]
pub enum Content {
    System(System),
    Steps(StepList),
    Requests(RequestList),
    Plan(Certificate),
    Wish(Wish),
    /// The text of a log, whose records are those of rows of a log.
    Log(LogText),
    Streams(StreamList),
}

/// What was read of the files of a command so far, of each kind of file at most one.
#[derive(Debug, Drop)]
pub struct Inputs {
    pub system: Option<System>,
    pub steps: Option<StepList>,
    pub requests: Option<RequestList>,
    pub plan: Option<Certificate>,
    pub wish: Option<Wish>,
    pub log: Option<LogText>,
    pub streams: Option<StreamList>,
}

impl Inputs {
    /// Before the first file.
    pub fn new() -> Inputs
        ensures inputs { result ≡ nothing_read }
    {
        Inputs {
            system: None,
            steps: None,
            requests: None,
            plan: None,
            wish: None,
            log: None,
            streams: None,
        }
    }

    /// Adds what a file holds.
    pub fn put(&mut self, content: Content)
        ensures put { self.new ≡ with_content self.old content }
    {
        match content {
            Content::System(system) => self.system = Some(system),
            Content::Steps(steps) => self.steps = Some(steps),
            Content::Requests(requests) => self.requests = Some(requests),
            Content::Plan(plan) => self.plan = Some(plan),
            Content::Wish(wish) => self.wish = Some(wish),
            Content::Log(log) => self.log = Some(log),
            Content::Streams(streams) => self.streams = Some(streams),
        }
    }

    /// The owners of identifiers that requests may have: those of the system.
    pub fn owners(&self) -> &[Owner]
        ensures owners { result.now ≡ owners_in self.now }
    {
        match &self.system {
            Some(system) => system.owners.as_slice(),
            None => &[],
        }
    }

    /// The number of slots that streams may have: that of the system.
    pub fn slots(&self) -> u8
        ensures slots { result ≡ slots_in self.now }
    {
        match &self.system {
            Some(system) => system.rules.slots,
            None => 0,
        }
    }
}
