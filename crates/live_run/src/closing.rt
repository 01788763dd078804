//! A whole run: the shared master is made, run and closed.

ghost use Rattle.std.specs.Prelude.{◌≡◌, ◌<◌, ◌≤◌, All, AllPairs, Any, IfOk, length};
ghost use Rattle.profile.specs.Limits.{arrivals_end, openings_end};
ghost use Rattle.requirement_table.specs.Instance.{bytes_of};
ghost use Rattle.admission.specs.Verdict.{IsRules};
ghost use Rattle.async_window.specs.Owners.{AreOwners};
ghost use Rattle.kept_run.specs.Setting.{Setting};
ghost use Rattle.live_run.specs.Left.{left_of};
ghost use Rattle.live_run.specs.Whole.{IsWholeRun};

use crate::frames::Run;
use crate::points::Gate;
use crate::running::run_live;
use crate::script::Script;
use admission_rules::Rules;
use async_window::{Owner, Request};
use cycle_engine::Nodes;
use cycle_layout::Layout;
use kept_run::laws::requests_of_owners;
use live_master::LiveMaster;
use master_core::Master;
use std::alloc::{AllocError, Global};
use std::sync::Wait;
use std::thread::Threads;

/// What a whole run leaves.
#[derive(Drop)]
pub struct EndedRun {
    /// The master, with the history of the run.
    pub master: Master,
    /// The frames on the bus, and how many requests are not sent.
    pub run: Run,
}

/// Makes a shared master with these rules and nodes before cycle 0, runs them as [`run_live`] does, and closes the
/// master.
///
/// The largest synchronous window of the rules and their number of slots are those of the layout. The owners' identifiers
/// are distinct and 0x200 to 0x7EF, and their nodes are among those of the rules. Each request's identifier has an owner,
/// and arrivals never fall and are below 2^40. There are less than 2^41 cycles and at most 8 scripts, the first one of
/// operator 1.
///
/// # Errors
///
/// Only where memory runs out.
pub fn run_whole<T: Threads + Wait + Sync, G: Gate>(
    rt: &T,
    alloc: Global,
    rules: Rules,
    layout: Layout,
    owners: &[Owner],
    requests: &[Request],
    cycles: u64,
    scripts: Vec<Script>,
    gate: &G,
) -> Result<EndedRun, AllocError>
    ghost setting: { Setting }
    requires given { setting ≡ record {
      rules = rules;
      layout = layout;
      owners = owners.now;
      requests = requests.now;
      sends = bytes_of;
    } }
    requires rules { IsRules rules }
    requires window { rules.window ≡ layout.window }
    requires slots { rules.slots ≡ layout.slots }
    requires owners { AreOwners owners.now }
    requires numbers { All (λ owner. owner.node < rules.nodes) owners.now }
    requires owned { All (λ request. Any (λ owner. owner.id ≡ request.frame.identifier) owners.now) requests.now }
    requires arrivals { AllPairs (λ one other. one.at ≤ other.at) requests.now }
    requires early { All (λ request. request.at < arrivals_end) requests.now }
    requires cycles { cycles < openings_end }
    requires scripts { length scripts.items ≤ 8 }
    ensures run { IfOk result (λ ended. IsWholeRun setting cycles scripts.items ended) }
    ensures left { IfOk result (λ ended. ended.run.left ≡ left_of owners.now requests.now ended.run.trace) }
{
    requests_of_owners();
    layout.is_in_range();
    let (shared, mut pass) = LiveMaster::new(alloc, rules)?;
    let nodes = Nodes::new(alloc, layout, rules.nodes, owners, requests)?;
    let run = run_live(rt, alloc, &shared, &mut pass, nodes, cycles, scripts, gate)?;
    let master = shared.close(pass);
    Ok(EndedRun { master, run })
}
