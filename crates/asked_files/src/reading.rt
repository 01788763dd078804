//! What the bytes of a file mean.

ghost use Rattle.asked_files.specs.Loads.{ReadsSource};

use crate::inputs::{Content, Inputs, LogText, StreamList};
use crate::stopping::{Refusal, Stop};
use command_words::Source;
use elastic::{WishFault, read_wish};
use log_reader::{LogFault, check_log};
use plan_check::{PlanTextFault, read_plan};
use requests_file::{RequestFault, RequestList, read_requests};
use requirement_table::Mask;
use sporadic_poll::{StreamFault, read_streams};
use std::alloc::Global;
use steps_file::{StepFault, StepList, read_steps};
use system_file::{SystemFault, read_system};

/// What the bytes of a file mean, after what was read before it: of a plan that it begins at cycle 0 with nothing
/// pending, and of a log the bytes themselves, where their records are those of rows of a log.
///
/// # Errors
///
/// Where the bytes break a rule of the file's format, or where memory runs out.
pub fn read_content(
    alloc: Global,
    source: Source,
    before: &Inputs,
    bytes: Vec<u8>,
) -> Result<Content, Stop>
    ensures reads { ReadsSource source before.now bytes.items result }
{
    match source {
        Source::System => match read_system(alloc, bytes.as_slice()) {
            Ok(system) => Ok(Content::System(system)),
            Err(SystemFault::Memory) => Err(Stop::Memory),
            Err(fault) => Err(Stop::Input(Refusal::System(fault))),
        },
        Source::Steps => match read_steps(alloc, bytes.as_slice()) {
            Ok(steps) => Ok(Content::Steps(StepList::of(steps))),
            Err(StepFault::Memory) => Err(Stop::Memory),
            Err(fault) => Err(Stop::Input(Refusal::Steps(fault))),
        },
        Source::Requests => match read_requests(alloc, bytes.as_slice(), before.owners()) {
            Ok(requests) => Ok(Content::Requests(RequestList::of(requests))),
            Err(RequestFault::Memory) => Err(Stop::Memory),
            Err(fault) => Err(Stop::Input(Refusal::Requests(fault))),
        },
        Source::Plan => match read_plan(alloc, bytes.as_slice()) {
            Ok(plan) => {
                if plan.from() == 0 && plan.pending() == Mask::empty() {
                    Ok(Content::Plan(plan))
                } else {
                    Err(Stop::Input(Refusal::LaterPlan))
                }
            }
            Err(PlanTextFault::Line { number }) => Err(Stop::Input(Refusal::Plan(number))),
            Err(PlanTextFault::Memory) => Err(Stop::Memory),
        },
        Source::Wishes => match read_wish(alloc, bytes.as_slice()) {
            Ok(wish) => Ok(Content::Wish(wish)),
            Err(WishFault::Memory) => Err(Stop::Memory),
            Err(fault) => Err(Stop::Input(Refusal::Wishes(fault))),
        },
        Source::Log => match check_log(alloc, bytes.as_slice()) {
            Ok(()) => Ok(Content::Log(LogText::of(bytes))),
            Err(LogFault::Row { number }) => Err(Stop::Input(Refusal::Log(number))),
            Err(LogFault::Memory) => Err(Stop::Memory),
        },
        Source::Streams => match read_streams(alloc, bytes.as_slice(), before.slots()) {
            Ok(streams) => Ok(Content::Streams(StreamList::of(streams))),
            Err(StreamFault::Memory) => Err(Stop::Memory),
            Err(fault) => Err(Stop::Input(Refusal::Streams(fault))),
        },
    }
}
