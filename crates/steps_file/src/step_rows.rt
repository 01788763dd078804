//! One row of a steps file by itself.
//!
//! | row | fields |
//! |---|---|
//! | `cycle` | COUNT |
//! | `look` | OPERATOR |
//! | `add`, `change` | OPERATOR, START, SLOT, NODE, LENGTH, PHASE, PERIOD, DEADLINE, PRIORITY |
//! | `remove` | OPERATOR, START, SLOT |
//! | `and` | `add` or `change` with SLOT to PRIORITY, or `remove` with SLOT |
//!
//! COUNT is 0 to 20,000, START is below 2^64, PHASE, PERIOD and DEADLINE are 0 to 65,535, and the
//! others are 0 to 255, of which OPERATOR has to be 1 to 8.

ghost use Rattle.std.specs.Prelude.{◌≡◌, ◌≤◌, map, length, option_map};
ghost use Rattle.text_fields.specs.CsvRows.{trimmed};
ghost use Rattle.text_fields.specs.RecordReading.{fields_in};
ghost use Rattle.steps_file.specs.StepForm.{verb_of, joins_of, form_of, fields_of_verb, has_fields};
ghost use Rattle.steps_file.specs.StepFields.{entry_at, operation_at, beginning, said_as};
ghost use Rattle.steps_file.specs.StepRow.{is_operator, has_operator, line_of};

use super::step_fault::StepWhy;
use change_protocol::Op;
use profile::MOST_CYCLES;
use requirement_table::Entry;
use text_fields::{Record, field_of, number};

/// What an operation does.
#[derive(Clone, Copy, Debug, PartialEq, Eq)]
pub enum StepVerb {
    /// It adds an entry.
    Add,
    /// It removes a slot's entry.
    Remove,
    /// It changes a slot's entry.
    Change,
}

/// The form of a row, as the words at its start say.
#[derive(Clone, Copy, Debug, PartialEq, Eq)]
pub enum Form {
    /// `cycle`.
    Cycle,
    /// `look`.
    Look,
    /// `add`, `remove` or `change`: it begins a change with this operation.
    Begins(StepVerb),
    /// `and`: it joins an operation to a change. `None` where no word of an operation follows.
    Joins(Option<StepVerb>),
}

/// What a row says.
#[derive(Clone, Copy, Debug, PartialEq, Eq)]
pub enum StepLine {
    /// That cycles run.
    Cycle {
        /// How many, 0 to 20,000.
        count: u64,
    },
    /// That an operator looks.
    Look {
        /// The operator.
        caller: u8,
    },
    /// That an operator asks for a change.
    Begins {
        /// The operator.
        caller: u8,
        /// The change's start.
        start: u64,
        /// Its first operation.
        op: Op,
    },
    /// That the change of the rows directly above has one more operation.
    Joins {
        /// The operation.
        op: Op,
    },
}

/// What an operation does, by its word.
fn read_verb(word: &[u8]) -> Option<StepVerb>
    ensures value { result ≡ verb_of word.now }
{
    if word == b"add".as_slice() {
        Some(StepVerb::Add)
    } else if word == b"remove".as_slice() {
        Some(StepVerb::Remove)
    } else if word == b"change".as_slice() {
        Some(StepVerb::Change)
    } else {
        None
    }
}

/// The form of an `and` row, by its second field.
fn read_joins(word: Option<&[u8]>) -> Option<Form>
    ensures value { result ≡ joins_of (option_map (λ field. field.now) word.entry) }
{
    let Some(word) = word else {
        return Some(Form::Joins(None));
    };
    let verb = read_verb(word)?;
    Some(Form::Joins(Some(verb)))
}

/// The form of a row.
#[tactic(auto, unfolding(crate::specs::StepForm::form_of))]
fn read_form(row: &Record<'_>) -> Option<Form>
    ensures value { result ≡ form_of (map trimmed (fields_in row.now)) }
{
    let word = field_of(row, 0)?;
    if word == b"cycle".as_slice() {
        Some(Form::Cycle)
    } else if word == b"look".as_slice() {
        Some(Form::Look)
    } else if word == b"and".as_slice() {
        read_joins(field_of(row, 1))
    } else {
        let verb = read_verb(word)?;
        Some(Form::Begins(verb))
    }
}

/// How many fields an operation has.
fn fields_of_verb(verb: StepVerb) -> usize
    ensures value { result ≡ fields_of_verb verb }
    ensures few { result ≤ 7 }
{
    match verb {
        StepVerb::Add | StepVerb::Change => 7,
        StepVerb::Remove => 1,
    }
}

/// Whether a row of this form has so many fields.
fn has_fields(form: Form, fields: usize) -> bool
    ensures value { result ≡ has_fields form fields }
{
    match form {
        Form::Cycle | Form::Look => fields == 2,
        Form::Begins(verb) => fields == 3 + fields_of_verb(verb),
        Form::Joins(Some(verb)) => fields == 2 + fields_of_verb(verb),
        Form::Joins(None) => false,
    }
}

/// The entry that the fields from this place on describe.
fn read_entry(row: &Record<'_>, place: usize) -> Option<Entry>
    requires near { place ≤ 3 }
    ensures value { result ≡ entry_at (map trimmed (fields_in row.now)) place }
{
    let slot = number(row, place, 0..=255)?;
    let node = number(row, place + 1, 0..=255)?;
    let length = number(row, place + 2, 0..=255)?;
    let phase = number(row, place + 3, 0..=65_535)?;
    let period = number(row, place + 4, 0..=65_535)?;
    let deadline = number(row, place + 5, 0..=65_535)?;
    let priority = number(row, place + 6, 0..=255)?;
    Some(Entry {
        slot: slot as u8,
        node: node as u8,
        length: length as u8,
        phase: phase as u16,
        period: period as u16,
        deadline: deadline as u16,
        priority: priority as u8,
    })
}

/// The operation that the fields from this place on describe.
fn read_operation(verb: StepVerb, row: &Record<'_>, place: usize) -> Option<Op>
    requires near { place ≤ 3 }
    ensures value { result ≡ operation_at verb (map trimmed (fields_in row.now)) place }
{
    match verb {
        StepVerb::Add => {
            let entry = read_entry(row, place)?;
            Some(Op::Add { entry })
        }
        StepVerb::Remove => {
            let slot = number(row, place, 0..=255)?;
            Some(Op::Remove { slot: slot as u8 })
        }
        StepVerb::Change => {
            let entry = read_entry(row, place)?;
            Some(Op::Change { entry })
        }
    }
}

/// What a row says that begins a change with this operation.
fn read_beginning(verb: StepVerb, row: &Record<'_>) -> Option<StepLine>
    ensures value { result ≡ beginning verb (map trimmed (fields_in row.now)) }
{
    let caller = number(row, 1, 0..=255)?;
    let start = number(row, 2, 0..=u64::MAX)?;
    let op = read_operation(verb, row, 3)?;
    Some(StepLine::Begins {
        caller: caller as u8,
        start,
        op,
    })
}

/// What a row of this form says, where each field is a number in its range.
#[tactic(auto, unfolding(crate::specs::StepFields::said_as))]
fn read_said(form: Form, row: &Record<'_>) -> Option<StepLine>
    ensures value { result ≡ said_as form (map trimmed (fields_in row.now)) }
{
    match form {
        Form::Cycle => {
            let count = number(row, 1, 0..=MOST_CYCLES)?;
            Some(StepLine::Cycle { count })
        }
        Form::Look => {
            let caller = number(row, 1, 0..=255)?;
            Some(StepLine::Look {
                caller: caller as u8,
            })
        }
        Form::Begins(verb) => read_beginning(verb, row),
        Form::Joins(Some(verb)) => {
            let op = read_operation(verb, row, 2)?;
            Some(StepLine::Joins { op })
        }
        Form::Joins(None) => None,
    }
}

/// Whether the number is that of an operator.
fn is_operator(caller: u8) -> bool
    ensures value { result ≡ is_operator caller }
{
    1 <= caller && caller <= 8
}

/// Whether the operator of a line, where it has one, is one.
fn has_operator(line: StepLine) -> bool
    ensures value { result ≡ has_operator line }
{
    match line {
        StepLine::Look { caller } | StepLine::Begins { caller, .. } => is_operator(caller),
        StepLine::Cycle { .. } | StepLine::Joins { .. } => true,
    }
}

/// What a row says by itself.
///
/// # Errors
///
/// `Word`, `Fields`, `Number` or `Operator`: the first of them, in this order, that is so.
#[tactic(auto, unfolding(crate::specs::StepRow::line_of))]
pub fn read_line(row: &Record<'_>) -> Result<StepLine, StepWhy>
    ensures value { result ≡ line_of (map trimmed (fields_in row.now)) }
{
    let Some(form) = read_form(row) else {
        return Err(StepWhy::Word);
    };
    if !has_fields(form, row.len()) {
        return Err(StepWhy::Fields);
    }
    let Some(line) = read_said(form, row) else {
        return Err(StepWhy::Number);
    };
    if !has_operator(line) {
        return Err(StepWhy::Operator);
    }
    Ok(line)
}
