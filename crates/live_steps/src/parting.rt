//! The steps of a file by who has them answered.

ghost use Rattle.std.specs.Prelude.{◌≡◌, ℕ, ◌+◌, ◌<◌, ◌≤◌, ◌==◌, [], ◌∷◌, ◌++◌};
ghost use Rattle.std.specs.Prelude.{if◌then◌else◌, All, length, slice_index_or, IfOk, OnOk};
ghost use Rattle.steps_file.specs.StepsFile.{AreLegalSteps};
ghost use Rattle.live_run.specs.declared.script.Script.{Script};
ghost use Rattle.live_steps.specs.Parts.{AreParted};

use change_protocol::Act;
use live_run::{ActList, OPERATORS, Script};
use std::alloc::{AllocError, Global};
use steps_file::Step;

/// The steps of a file, parted.
#[derive(Drop)]
pub struct LiveParts {
    /// How many cycles all counts together ask for.
    pub cycles: u64,
    /// The acts of each operator, from operator 1 on.
    pub scripts: Vec<Script>,
}

/// Scripts of all operators, without an act.
fn empty_scripts(alloc: Global) -> Result<Vec<Script>, AllocError>
    ensures count { IfOk result (λ scripts. length scripts.items ≡ 8) }
    ensures empty { IfOk result (λ scripts. All (λ script. script.acts ≡ []) scripts.items) }
{
    let mut scripts = Vec::new(alloc);
    for _ in 0..OPERATORS {
        scripts.push(Script {
            acts: ActList::of(Vec::new(alloc)),
        })?;
    }
    Ok(scripts)
}

/// Adds an act to the script of its operator.
fn add_act(scripts: &mut [Script], caller: u8, act: Act) -> Result<(), AllocError>
    requires count { length scripts.old ≡ 8 }
    requires some { 1 ≤ caller }
    requires few { caller ≤ 8 }
    ensures count { length scripts.new ≡ length scripts.old }
    ensures added { OnOk result ((k : ℕ) (d : Script) → k < 8 → (slice_index_or scripts.new k d).acts
        ≡ (if caller == k + 1 then (slice_index_or scripts.old k d).acts ++ act ∷ []
        else (slice_index_or scripts.old k d).acts)) }
{
    let script = &mut scripts[usize::from(caller) - 1];
    script.acts.push(act)
}

/// Parts the steps of a file, which has its limits.
pub fn part(alloc: Global, steps: Vec<Step>) -> Result<LiveParts, AllocError>
    requires steps { AreLegalSteps steps.items }
    ensures parted { IfOk result (AreParted steps.items) }
{
    let mut cycles = 0;
    let mut scripts = empty_scripts(alloc)?;
    for step in steps {
        match step {
            Step::Cycle { count } => cycles += count,
            Step::Act { caller, act } => add_act(scripts.as_mut_slice(), caller, act)?,
        }
    }
    Ok(LiveParts { cycles, scripts })
}
