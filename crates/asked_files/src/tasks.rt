//! What a command asks for with what was read of its files.

ghost use Rattle.std.specs.Prelude.{◌≡◌, Some};
ghost use Rattle.command_words.specs.WordsRead.{command_read};
ghost use Rattle.asked_files.specs.Asked.{asked_by, asked_with, job_of};

use crate::inputs::{Inputs, LogText, StreamList};
use command_words::{Command, Verb};
use elastic::Wish;
use plan_check::Certificate;
use requests_file::RequestList;
use std::alloc::Global;
use steps_file::StepList;
use system_file::System;

/// A run: in which system, by which steps, and with which requests.
#[derive(Debug, Drop)]
pub struct Job {
    pub system: System,
    pub steps: StepList,
    pub requests: RequestList,
}

/// What is to be done.
#[derive(Debug, Drop)]
pub enum Task {
    /// To write the log of the run, or so many of its last rows, and the report after it or not.
    Log(Job, Option<u16>, bool),
    /// To write the plan of the table that stands after the run.
    Table(Job),
    /// To check the certificate against the changes of the steps.
    Check(Job, Certificate),
    /// To write the summary of the run of the input that this number makes.
    Summary(u32),
    /// To write the log of the run by threads, and the report after it or not.
    Live(Job, bool),
    /// To choose the periods of a wish after the run.
    Choice(Job, Wish),
    /// To write the log of the run, whose master is replaced by its standby after so many opened cycles.
    Handover(Job, u32),
    /// To say of the text of a log whether it can be that of the run.
    Audit(Job, LogText),
    /// To write the log of the run, with these requests in the frames of polled slots, and what became of each.
    Poll(Job, StreamList),
}

/// The run of what was read, where a system and steps were.
fn job_of(
    alloc: Global,
    system: Option<System>,
    steps: Option<StepList>,
    requests: Option<RequestList>,
) -> Option<Job>
    ensures job { result ≡ job_of system steps requests }
{
    let Some(system) = system else {
        return None;
    };
    let Some(steps) = steps else {
        return None;
    };
    Some(Job {
        system,
        steps,
        requests: requests.unwrap_or(RequestList::of(Vec::new(alloc))),
    })
}

/// What a command asks for of a run, with the rest of what was read.
fn task_of_run(
    command: &Command<'_>,
    job: Job,
    plan: Option<Certificate>,
    wish: Option<Wish>,
    log: Option<LogText>,
    streams: Option<StreamList>,
) -> Option<Task>
    ensures asked { (inputs : Inputs) → (command.now.verb ≡ Verb.Generate → ⊥) → plan ≡ inputs.plan
        → wish ≡ inputs.wish → log ≡ inputs.log → streams ≡ inputs.streams
        → result ≡ asked_by command.now.verb (command_read command.now) (Some job) inputs }
{
    match command.verb {
        Verb::Replay => Some(Task::Log(job, command.tail, command.report)),
        Verb::Admit => Some(Task::Table(job)),
        Verb::Check => match plan {
            Some(plan) => Some(Task::Check(job, plan)),
            None => None,
        },
        Verb::Generate => None,
        Verb::Live => Some(Task::Live(job, command.report)),
        Verb::Audit => match log {
            Some(log) => Some(Task::Audit(job, log)),
            None => None,
        },
        Verb::Handover => Some(Task::Handover(job, command.number)),
        Verb::Poll => match streams {
            Some(streams) => Some(Task::Poll(job, streams)),
            None => None,
        },
        Verb::Elastic => match wish {
            Some(wish) => Some(Task::Choice(job, wish)),
            None => None,
        },
    }
}

/// What a command asks for with what was read of its files; nothing where one that it needs is missing.
pub fn task_of(alloc: Global, command: &Command<'_>, inputs: Inputs) -> Option<Task>
    ensures asked { result ≡ asked_with (command_read command.now) inputs }
{
    let Inputs {
        system,
        steps,
        requests,
        plan,
        wish,
        log,
        streams,
    } = inputs;
    match command.verb {
        Verb::Generate => Some(Task::Summary(command.number)),
        _ => match job_of(alloc, system, steps, requests) {
            Some(job) => task_of_run(command, job, plan, wish, log, streams),
            None => None,
        },
    }
}
