//! The steps file: rows `cycle`, `look`, `add`, `remove`, `change` and `and` of comma-separated
//! fields.
//!
//! A row `add`, `remove` or `change` begins a change, and each `and` row directly below a row of a
//! change gives it one operation more. There are at most 1,000 changes and 1,000 looks, and the
//! counts of the `cycle` rows sum to at most 20,000.

ghost use Rattle.std.specs.Prelude.{◌≡◌, ◌⊎◌, ◌+◌, List, [], ◌∷◌, ◌++◌, map, Option, is_some, is_ok, true};
ghost use Rattle.std.specs.Prelude.{false, nat_lt, nat_le, IfOk, IfErr, Err, Ok, Some, None, MatchResult};
ghost use Rattle.profile.specs.Limits.{most_cycles};
ghost use Rattle.text_fields.specs.CsvRows.{trimmed, rows_of};
ghost use Rattle.text_fields.specs.RecordReading.{fields_in};
ghost use Rattle.steps_file.specs.StepRow.{below, meaning, joins};
ghost use Rattle.steps_file.specs.StepsReading.{Counts, Drafts, GrowsBy, GrewBy, asking, step_of_asked, last_steps};
ghost use Rattle.steps_file.specs.StepsFile.{AreSteps, IsStepFault, AreLegalSteps, steps_of};
ghost use Rattle.steps_file.specs.declared.step_rows.StepLine.{StepLine};
ghost use Rattle.steps_file.specs.declared.step_fault.StepFault.TheVariants.{Memory};
ghost use Rattle.steps_file.specs.declared.step_fault.StepWhy.TheVariants.{Loose, Changes, Looks, Cycles};

use super::step_fault::{StepFault, StepWhy};
use super::step_rows::{StepLine, read_line};
use change_protocol::{Act, Change, Op, Ops};
use profile::MOST_CYCLES;
use std::alloc::Global;
use text_fields::{Record, begin_reading, next_record};

/// What a steps file asks for, one after the other.
#[derive(Drop, Debug)]
pub enum Step {
    /// That elementary cycles run.
    Cycle {
        /// How many, 0 to 20,000.
        count: u64,
    },
    /// That an operator acts.
    Act {
        /// The operator, 1 to 8.
        caller: u8,
        /// What it asks. A change has at least one operation here, and may have any number of them.
        act: Act,
    },
}

/// The most changes of a file.
const MAX_CHANGES: u32 = 1_000;

/// The most looks of a file.
const MAX_LOOKS: u32 = 1_000;

/// What matters of the rows above a row.
#[derive(Clone, Copy)]
struct StepTally {
    /// Whether the row directly above is of a change.
    in_change: bool,
    /// How many changes were begun.
    changes: u32,
    /// How many looks there were.
    looks: u32,
    /// How many cycles were run.
    cycles: u64,
}

impl StepTally {
    /// That of no rows.
    fn new() -> StepTally
        ensures counts { Counts [] result }
    {
        StepTally {
            in_change: false,
            changes: 0,
            looks: 0,
            cycles: 0,
        }
    }

    /// That of the rows and one more, which says this line.
    fn with(self, line: StepLine) -> Result<StepTally, StepWhy>
        ensures counts { (lines : List StepLine) → Counts lines self → IfOk result (Counts (lines ++ line ∷ [])) }
        ensures value { (lines : List StepLine) → Counts lines self
            → MatchResult result (λ tally. below lines line ≡ Ok line) (λ why. below lines line ≡ Err why) }
        ensures in_change { IfOk result (λ tally. joins line ≡ true → self.in_change ≡ true) }
    {
        match line {
            StepLine::Cycle { count } => self.with_cycles(count),
            StepLine::Look { .. } => self.with_look(),
            StepLine::Begins { .. } => self.with_change(),
            StepLine::Joins { .. } => self.with_operation(),
        }
    }

    /// That of one more row, of so many cycles.
    fn with_cycles(self, count: u64) -> Result<StepTally, StepWhy>
        ensures ok { IfOk result (λ tally. tally
            ≡ record { in_change = false; changes = self.changes; looks = self.looks; cycles = self.cycles + count }) }
        ensures room { is_ok result ≡ nat_le (self.cycles + count) most_cycles }
        ensures why { IfErr result (λ why. why ≡ Cycles) }
    {
        let cycles = self.cycles.saturating_add(count);
        if cycles > MOST_CYCLES {
            return Err(StepWhy::Cycles);
        }
        Ok(StepTally {
            in_change: false,
            cycles,
            ..self
        })
    }

    /// That of one more row, of a look.
    fn with_look(self) -> Result<StepTally, StepWhy>
        ensures ok { IfOk result (λ tally. tally
            ≡ record { in_change = false; changes = self.changes; looks = self.looks + 1; cycles = self.cycles }) }
        ensures room { is_ok result ≡ nat_lt self.looks 1000 }
        ensures why { IfErr result (λ why. why ≡ Looks) }
    {
        if self.looks >= MAX_LOOKS {
            return Err(StepWhy::Looks);
        }
        Ok(StepTally {
            in_change: false,
            looks: self.looks + 1,
            ..self
        })
    }

    /// That of one more row, which begins a change.
    fn with_change(self) -> Result<StepTally, StepWhy>
        ensures ok { IfOk result (λ tally. tally
            ≡ record { in_change = true; changes = self.changes + 1; looks = self.looks; cycles = self.cycles }) }
        ensures room { is_ok result ≡ nat_lt self.changes 1000 }
        ensures why { IfErr result (λ why. why ≡ Changes) }
    {
        if self.changes >= MAX_CHANGES {
            return Err(StepWhy::Changes);
        }
        Ok(StepTally {
            in_change: true,
            changes: self.changes + 1,
            ..self
        })
    }

    /// That of one more row, which joins an operation to a change.
    fn with_operation(self) -> Result<StepTally, StepWhy>
        ensures ok { IfOk result (λ tally. tally
            ≡ record { in_change = true; changes = self.changes; looks = self.looks; cycles = self.cycles }) }
        ensures room { is_ok result ≡ self.in_change }
        ensures why { IfErr result (λ why. why ≡ Loose) }
    {
        if !self.in_change {
            return Err(StepWhy::Loose);
        }
        Ok(self)
    }
}

/// What a row says below these rows, and the tally with it.
#[tactic(auto, unfolding(crate::specs::StepRow::meaning))]
fn read_row(row: &Record<'_>, above: StepTally) -> Result<(StepLine, StepTally), StepWhy>
    ensures counts { (lines : List StepLine) → Counts lines above
        → IfOk result (λ read. Counts (lines ++ read.0 ∷ []) read.1) }
    ensures value { (lines : List StepLine) → Counts lines above
        → MatchResult result (λ read. meaning lines (map trimmed (fields_in row.now)) ≡ Ok read.0)
        (λ why. meaning lines (map trimmed (fields_in row.now)) ≡ Err why) }
    ensures in_change { IfOk result (λ read. joins read.0 ≡ true → above.in_change ≡ true) }
{
    let line = read_line(row)?;
    let tally = above.with(line)?;
    Ok((line, tally))
}

/// A change to which further rows may add operations.
#[derive(Drop)]
struct ChangeDraft {
    /// The operator.
    caller: u8,
    /// The change's start.
    start: u64,
    /// Its operations so far.
    ops: Vec<Op>,
}

impl ChangeDraft {
    /// A change of one operation.
    fn new(alloc: Global, caller: u8, start: u64, op: Op) -> Result<ChangeDraft, StepFault>
        ensures ok { IfOk result (λ asked. step_of_asked asked ≡ asking caller start (op ∷ [])) }
        ensures fault { IfErr result (λ fault. fault ≡ Memory) }
    {
        let ops = vec![in alloc; op]?;
        Ok(ChangeDraft { caller, start, ops })
    }

    /// The change with one operation more.
    fn with(self, op: Op) -> Result<ChangeDraft, StepFault>
        ensures ok { IfOk result (GrowsBy op self) }
        ensures fault { IfErr result (λ fault. fault ≡ Memory) }
    {
        let ChangeDraft {
            caller,
            start,
            mut ops,
        } = self;
        ops.push(op)?;
        Ok(ChangeDraft { caller, start, ops })
    }

    /// The step that asks for the change.
    fn into_step(self) -> Step
        ensures value { result ≡ step_of_asked self }
    {
        let ChangeDraft { caller, start, ops } = self;
        let change = Change {
            start,
            ops: Ops::of(ops),
        };
        Step::Act {
            caller,
            act: Act::Ask { change },
        }
    }
}

/// The steps of the rows so far.
#[derive(Drop)]
struct Draft {
    /// The steps that stay as they are.
    steps: Vec<Step>,
    /// The change behind them, where the last row is of one.
    asked: Option<ChangeDraft>,
}

impl Draft {
    /// Those of no rows.
    fn new(alloc: Global) -> Draft
        ensures drafts { Drafts [] result }
    {
        Draft {
            steps: Vec::new(alloc),
            asked: None,
        }
    }

    /// All steps.
    fn into_steps(self) -> Result<Vec<Step>, StepFault>
        ensures ok { IfOk result (λ steps. steps.items ≡ self.steps.items ++ last_steps self.asked) }
        ensures fault { IfErr result (λ fault. fault ≡ Memory) }
    {
        let Draft { mut steps, asked } = self;
        match asked {
            Some(asked) => {
                steps.push(asked.into_step())?;
                Ok(steps)
            }
            None => Ok(steps),
        }
    }

    /// With a step more, which stays as it is.
    fn with_step(self, step: Step) -> Result<Draft, StepFault>
        ensures steps { IfOk result
            (λ draft. draft.steps.items ≡ (self.steps.items ++ last_steps self.asked) ++ step ∷ []) }
        ensures asked { IfOk result (λ draft. draft.asked ≡ None) }
        ensures fault { IfErr result (λ fault. fault ≡ Memory) }
    {
        let mut steps = self.into_steps()?;
        steps.push(step)?;
        Ok(Draft { steps, asked: None })
    }

    /// With a change more, to which further rows may add operations.
    fn with_change(self, asked: ChangeDraft) -> Result<Draft, StepFault>
        ensures steps { IfOk result (λ draft. draft.steps.items ≡ self.steps.items ++ last_steps self.asked) }
        ensures asked { IfOk result (λ draft. draft.asked ≡ Some asked) }
        ensures fault { IfErr result (λ fault. fault ≡ Memory) }
    {
        let steps = self.into_steps()?;
        Ok(Draft {
            steps,
            asked: Some(asked),
        })
    }

    /// With an operation more of the last change.
    fn with_operation(self, op: Op) -> Result<Draft, StepFault>
        requires in_change { is_some self.asked ≡ true }
        ensures steps { IfOk result (λ draft. draft.steps ≡ self.steps) }
        ensures asked { IfOk result (λ draft. GrewBy op self.asked draft.asked) }
        ensures fault { IfErr result (λ fault. fault ≡ Memory) }
    {
        let Draft { steps, asked } = self;
        match asked {
            Some(asked) => {
                let asked = asked.with(op)?;
                Ok(Draft {
                    steps,
                    asked: Some(asked),
                })
            }
            None => unreachable!(),
        }
    }

    /// Those of the rows and one more, which says this line.
    fn with(self, alloc: Global, line: StepLine) -> Result<Draft, StepFault>
        requires in_change { joins line ≡ true → is_some self.asked ≡ true }
        ensures drafts { (lines : List StepLine) → Drafts lines self → IfOk result (Drafts (lines ++ line ∷ [])) }
        ensures fault { IfErr result (λ fault. fault ≡ Memory) }
    {
        match line {
            StepLine::Cycle { count } => self.with_step(Step::Cycle { count }),
            StepLine::Look { caller } => self.with_step(Step::Act {
                caller,
                act: Act::Look,
            }),
            StepLine::Begins { caller, start, op } => {
                let asked = ChangeDraft::new(alloc, caller, start, op)?;
                self.with_change(asked)
            }
            StepLine::Joins { op } => self.with_operation(op),
        }
    }
}

/// Reads a steps file.
///
/// # Errors
///
/// `Row` with the first row that is none and why, and `Memory` where memory ran out.
pub fn read_steps(alloc: Global, bytes: &[u8]) -> Result<Vec<Step>, StepFault>
    ensures ok { IfOk result (λ steps. AreSteps (rows_of bytes.now) steps.items) }
    ensures fault { IfErr result (IsStepFault (rows_of bytes.now)) }
    ensures legal { IfOk result (λ steps. AreLegalSteps steps.items) }
    ensures value { MatchResult result (λ steps. steps_of bytes.now ≡ Ok steps.items)
        (λ fault. (fault ≡ Memory) ⊎ (steps_of bytes.now ≡ Err fault)) }
{
    let mut reader = begin_reading(alloc, bytes);
    let mut row = Record::new(alloc);
    let mut tally = StepTally::new();
    let mut draft = Draft::new(alloc);
    let mut number = 0u64;
    while next_record(&mut reader, &mut row)? {
        number += 1;
        match read_row(&row, tally) {
            Ok((line, with_row)) => {
                draft = draft.with(alloc, line)?;
                tally = with_row;
            }
            Err(why) => return Err(StepFault::Row { number, why }),
        }
    }
    draft.into_steps()
}
