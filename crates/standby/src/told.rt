//! What a standby is told, one thing after the other.

ghost use Rattle.std.specs.Prelude.{◌≡◌, ◌+◌, ◌≤◌, ◌∷◌, List, All, IfErr, OnErr, OnOk, length};
ghost use Rattle.profile.specs.Limits.{openings_end};
ghost use Rattle.master_core.specs.declared.event.Event.{Event};
ghost use Rattle.master_core.specs.History.{IsLegal, next_of};
ghost use Rattle.standby.specs.Core.{core_of};
ghost use Rattle.standby.specs.declared.follow_fault.FollowFault.TheVariants.{Memory};
ghost use Rattle.standby.specs.declared.told.Told.{Told as ToldOf};
ghost use Rattle.standby.specs.Handover.{HasCaller, IsBehind};
ghost use Rattle.standby.specs.Telling.{FollowsAll, FollowsOne, IsFollowFault, StopsAt};

use crate::follow_fault::FollowFault;
use crate::laws::told_whole;
use crate::standby::Standby;
use can_frame::Frame;
use change_protocol::Change;
use items::Items;
use std::alloc::Global;

/// A list of frames that a value holds. Contracts see the list.
pub type Frames = Items<Frame>;

/// What a standby is told.
#[derive(Drop, Debug)]
pub enum Told {
    /// The first master accepted a change of operator `caller`, 1 to 8.
    Change { caller: u8, change: Change },
    /// These trigger frames of a cycle were heard.
    Trigger { frames: Frames },
}

/// Tells a standby one thing.
fn follow_one(standby: &mut Standby, alloc: Global, told: &Told) -> Result<(), FollowFault>
    requires caller { HasCaller told.now }
    requires next { next_of standby.old.history + 1 ≤ openings_end }
    ensures rules { standby.new.rules ≡ standby.old.rules }
    ensures next { next_of standby.new.history ≤ next_of standby.old.history + 1 }
    ensures same { OnErr result (standby.new.history ≡ standby.old.history) }
    ensures followed { OnOk result (FollowsOne standby.old told.now standby.new.history) }
    ensures fault { IfErr result (IsFollowFault standby.old told.now) }
    ensures behind { (whole : List Event) (rest : List ToldOf)
        → IsLegal standby.old.rules whole → IsBehind standby.old.rules whole standby.old.history (told.now ∷ rest)
        → OnOk result (IsBehind standby.old.rules whole standby.new.history rest) }
    ensures due { (whole : List Event) (rest : List ToldOf)
        → IsLegal standby.old.rules whole → IsBehind standby.old.rules whole standby.old.history (told.now ∷ rest)
        → IfErr result (λ fault. fault ≡ Memory) }
{
    match told {
        Told::Change { caller, change } => standby.change(alloc, *caller, change),
        Told::Trigger { frames } => standby.trigger(alloc, frames.as_slice()),
    }
}

/// Tells a standby one thing after the other. *Handover*: where these are what is left to be told of a legal history,
/// there is no fault but want of memory, and behind them the core of the standby's history is that of the whole one.
///
/// The callers are 1 to 8, and the cycles are below 2^41.
///
/// # Errors
///
/// The first fault, whatever is told. What was told before it is followed, and nothing behind it is heard.
#[tactic(auto, using(crate::proofs::Telling::follows_none, crate::proofs::Telling::follows_whole))]
pub fn follow(standby: &mut Standby, alloc: Global, told: &[Told]) -> Result<(), FollowFault>
    requires callers { All HasCaller told.now }
    requires next { next_of standby.old.history + length told.now ≤ openings_end }
    ensures rules { standby.new.rules ≡ standby.old.rules }
    ensures followed { OnOk result (FollowsAll standby.old told.now standby.new.history) }
    ensures stopped { IfErr result (StopsAt standby.old told.now standby.new.history) }
    ensures handover { (whole : List Event)
        → IsLegal standby.old.rules whole → IsBehind standby.old.rules whole standby.old.history told.now
        → OnOk result (core_of whole ≡ core_of standby.new.history) }
    ensures due { (whole : List Event)
        → IsLegal standby.old.rules whole → IsBehind standby.old.rules whole standby.old.history told.now
        → IfErr result (λ fault. fault ≡ Memory) }
{
    told_whole();
    for one in told {
        follow_one(standby, alloc, one)?;
    }
    Ok(())
}
