//! The system file: a TOML document with the table `bus`, perhaps the table `plan`, and perhaps the
//! array of tables `async`.

ghost use Rattle.std.specs.Prelude.{◌≡◌, ◌≢◌, ◌≤◌, ◌++◌, [], ◌∷◌};
ghost use Rattle.std.specs.Prelude.{IfErr, IfOk, OnOk, All, AllPairs, Some, None, Ok, Err, map, nat_eq, codes};
ghost use Rattle.std.specs.List.{flat_map, list_any};
ghost use Rattle.profile.specs.Limits.{greatest_horizon};
ghost use Rattle.toml.specs.Data.{get_member};
ghost use Rattle.toml.specs.View.{table_view, view};
ghost use Rattle.trigger_kind.specs.Kind.{IsSlots};
ghost use Rattle.cycle_layout.specs.Layout.{IsLayout, needed};
ghost use Rattle.system_file.specs.SystemFile.{fill_named, fill_of, fill_row, number_in, slots_row};
ghost use Rattle.system_file.specs.SystemFile.{IsSystem, bus_of, bus_rows, described_by, document_of, element_of};
ghost use Rattle.system_file.specs.SystemFile.{elements_of, elements_in, faults_of, from_place, id_of};
ghost use Rattle.system_file.specs.SystemFile.{kind_at, kind_faults, kinds_in_element, least_horizon, members_in};
ghost use Rattle.system_file.specs.SystemFile.{narrow_at, owner_of, plan_of, plan_rows, policy_named, policy_of};
ghost use Rattle.system_file.specs.SystemFile.{policy_row, range_at, range_faults, ranges_among, ranges_in_element};
ghost use Rattle.system_file.specs.SystemFile.{repeated_fault, narrow_faults, system_of};
ghost use Rattle.system_file.specs.SystemFile.{table_fault, text_in, unknown_faults, unknown_in_element, value_of};
ghost use Rattle.system_file.specs.SystemParts.{AreBusNumbers, HaveOtherIds, IsBusOf, IsFirstSystemFault, IsOwner, IsPlanSet};
ghost use Rattle.system_file.specs.SystemParts.{id_of_owner, members_at, prefix_of};
ghost use Rattle.system_file.specs.declared.system_fault.SystemFault.TheVariants.{Toml, Memory};
ghost use Rattle.system_file.specs.declared.system_sections.Place.TheVariants as place;

use crate::owners::OwnerList;
use crate::system_fault::{PathText, SystemFault};
use crate::system_sections::{Place, Section, TomlKind};
use admission_rules::Rules;
use async_window::Owner;
use cycle_layout::{Layout, LayoutFault};
use planner_policies::{Fill, Policy};
use profile::{
    FIRST_SLOTS, GREATEST_HORIZON, GREATEST_IDENTIFIER, LEAST_ASYNCHRONOUS, LONGEST_CYCLE,
    LONGEST_TURNAROUND, LONGEST_WINDOW, MOST_NODES, MOST_SLOTS, SHORTEST_CYCLE, SHORTEST_WINDOW,
};
use std::alloc::Global;
use toml::{Table, Value};

/// What a system file sets.
#[derive(Drop, Debug)]
pub struct System {
    /// The elementary cycle and its windows.
    pub layout: Layout,
    /// The rules by which changes are judged. Their window and their slots are those of the layout.
    pub rules: Rules,
    /// The asynchronous identifiers and the nodes that send them, in the order of the file.
    pub owners: OwnerList,
}

/// The most nodes.
const MAX_NODES: u32 = MOST_NODES as u32;

/// The least horizon, in elementary cycles.
const LEAST_HORIZON: u32 = 1;

/// The greatest horizon, in elementary cycles.
const MAX_HORIZON: u32 = GREATEST_HORIZON as u32;

/// The document that the bytes write.
fn read_document(alloc: Global, bytes: &[u8]) -> Result<Table, SystemFault>
    ensures ok { IfOk result (λ document. document_of bytes.now ≡ Some (table_view document)) }
    ensures refused { result ≡ Err Toml → document_of bytes.now ≡ None }
    ensures fault { IfErr result (IsFirstSystemFault (Toml ∷ [])) }
{
    match toml::table_from_slice(alloc, bytes) {
        Ok(document) => Ok(document),
        Err(error) => {
            if error.is_memory() {
                Err(SystemFault::Memory)
            } else {
                Err(SystemFault::Toml)
            }
        }
    }
}

/// The document as a table whose keys have nothing before them.
fn top_of(document: &Table) -> Section<'_>
    ensures place { result.place ≡ place.Top }
    ensures members { members_at result.table ≡ table_view document.now }
{
    Section {
        place: Place::Top,
        table: Some(document),
    }
}

/// The table at a key of the document.
fn table_at<'a>(document: &'a Table, key: &str) -> Option<&'a Table>
    ensures members { members_at result ≡ members_in (get_member key.now (table_view document.now)) }
{
    let value = top_of(document).value(key)?;
    value.as_table()
}

/// The table `bus`.
fn bus_of(document: &Table) -> Section<'_>
    ensures place { result.place ≡ place.Bus }
    ensures members { members_at result.table ≡ bus_of (table_view document.now) }
{
    Section {
        place: Place::Bus,
        table: table_at(document, "bus"),
    }
}

/// The table `plan`.
fn plan_of(document: &Table) -> Section<'_>
    ensures place { result.place ≡ place.Plan }
    ensures members { members_at result.table ≡ plan_of (table_view document.now) }
{
    Section {
        place: Place::Plan,
        table: table_at(document, "plan"),
    }
}

/// The elements of a value, where it is an array.
fn items_of(value: &Value) -> &[Value]
    ensures items { map view result.now ≡ elements_in (Some (view value.now)) }
{
    match value.as_array() {
        Some(items) => items.as_slice(),
        None => &[],
    }
}

/// The elements of the array `async`.
fn elements_of(document: &Table) -> &[Value]
    ensures elements { map view result.now ≡ elements_of (table_view document.now) }
{
    match top_of(document).value("async") {
        Some(value) => items_of(value),
        None => &[],
    }
}

/// An element of `async`.
fn element_of(index: usize, element: &Value) -> Section<'_>
    ensures place { result.place ≡ place.Element index }
    ensures members { members_at result.table ≡ element_of (view element.now) }
{
    Section {
        place: Place::Element { index },
        table: element.as_table(),
    }
}

/// Tests that all keys of an element of `async` are known.
fn check_element_keys(alloc: Global, index: usize, element: &Value) -> Result<(), SystemFault>
    ensures ok { OnOk result (unknown_in_element index (view element.now) ≡ []) }
    ensures fault { IfErr result (IsFirstSystemFault (unknown_in_element index (view element.now))) }
{
    element_of(index, element).check_keys(alloc, &["id", "node"])
}

/// Tests that all keys of the elements of `async` are known.
fn check_elements_keys(alloc: Global, elements: &[Value]) -> Result<(), SystemFault>
    ensures ok { OnOk result (from_place unknown_in_element 0 (map view elements.now) ≡ []) }
    ensures fault { IfErr result (IsFirstSystemFault (from_place unknown_in_element 0 (map view elements.now))) }
{
    for (index, element) in elements.iter().enumerate() {
        check_element_keys(alloc, index, element)?;
    }
    Ok(())
}

/// Tests that all keys are known.
fn check_keys(alloc: Global, document: &Table) -> Result<(), SystemFault>
    ensures ok { OnOk result (unknown_faults (table_view document.now) ≡ []) }
    ensures fault { IfErr result (IsFirstSystemFault (unknown_faults (table_view document.now))) }
{
    top_of(document).check_keys(alloc, &["bus", "plan", "async"])?;
    bus_of(document).check_keys(alloc, &["cycle", "turnaround", "window", "nodes", "slots"])?;
    plan_of(document).check_keys(alloc, &["policy", "horizon", "fill"])?;
    check_elements_keys(alloc, elements_of(document))
}

/// Tests that the keys of `bus` are there and hold integers.
fn check_bus(alloc: Global, document: &Table) -> Result<(), SystemFault>
    ensures ok { OnOk result (flat_map (kind_at (codes "bus.") (bus_of (table_view document.now))) bus_rows ≡ []) }
    ensures fault { IfErr result
        (IsFirstSystemFault (flat_map (kind_at (codes "bus.") (bus_of (table_view document.now))) bus_rows)) }
{
    let bus = bus_of(document);
    bus.check_kind(alloc, "cycle", TomlKind::Integer, true)?;
    bus.check_kind(alloc, "turnaround", TomlKind::Integer, false)?;
    bus.check_kind(alloc, "window", TomlKind::Integer, true)?;
    bus.check_kind(alloc, "nodes", TomlKind::Integer, true)?;
    bus.check_kind(alloc, "slots", TomlKind::Integer, false)
}

/// Tests that the keys of `plan` hold what they should, where they are there.
fn check_plan(alloc: Global, document: &Table) -> Result<(), SystemFault>
    ensures ok { OnOk result (flat_map (kind_at (codes "plan.") (plan_of (table_view document.now))) plan_rows ≡ []) }
    ensures fault { IfErr result
        (IsFirstSystemFault (flat_map (kind_at (codes "plan.") (plan_of (table_view document.now))) plan_rows)) }
{
    let plan = plan_of(document);
    plan.check_kind(alloc, "policy", TomlKind::Text, false)?;
    plan.check_kind(alloc, "horizon", TomlKind::Integer, false)?;
    plan.check_kind(alloc, "fill", TomlKind::Text, false)
}

/// Tests that an element of `async` is a table.
fn check_is_table(alloc: Global, index: usize, element: &Value) -> Result<(), SystemFault>
    ensures ok { OnOk result (table_fault index (view element.now) ≡ []) }
    ensures fault { IfErr result (IsFirstSystemFault (table_fault index (view element.now))) }
{
    if element.is_table() {
        return Ok(());
    }
    let path = format!(in alloc; "async.{index}")?;
    Err(SystemFault::Key {
        path: PathText::of(path),
    })
}

/// Tests that an element of `async` is a table whose keys are there and hold integers.
fn check_element(alloc: Global, index: usize, element: &Value) -> Result<(), SystemFault>
    ensures ok { OnOk result (kinds_in_element index (view element.now) ≡ []) }
    ensures fault { IfErr result (IsFirstSystemFault (kinds_in_element index (view element.now))) }
{
    check_is_table(alloc, index, element)?;
    let section = element_of(index, element);
    section.check_kind(alloc, "id", TomlKind::Integer, true)?;
    section.check_kind(alloc, "node", TomlKind::Integer, true)
}

/// Tests each element of `async`.
fn check_elements(alloc: Global, elements: &[Value]) -> Result<(), SystemFault>
    ensures ok { OnOk result (from_place kinds_in_element 0 (map view elements.now) ≡ []) }
    ensures fault { IfErr result (IsFirstSystemFault (from_place kinds_in_element 0 (map view elements.now))) }
{
    for (index, element) in elements.iter().enumerate() {
        check_element(alloc, index, element)?;
    }
    Ok(())
}

/// Tests that no key is missing, and that each holds its kind.
fn check_kinds(alloc: Global, document: &Table) -> Result<(), SystemFault>
    ensures ok { OnOk result (kind_faults (table_view document.now) ≡ []) }
    ensures fault { IfErr result (IsFirstSystemFault (kind_faults (table_view document.now))) }
{
    let top = top_of(document);
    top.check_kind(alloc, "bus", TomlKind::Table, true)?;
    check_bus(alloc, document)?;
    top.check_kind(alloc, "plan", TomlKind::Table, false)?;
    check_plan(alloc, document)?;
    top.check_kind(alloc, "async", TomlKind::Array, false)?;
    check_elements(alloc, elements_of(document))
}

/// The numbers of `bus`: the lengths of the elementary cycle, of the turnaround and of the largest
/// synchronous window in bit times, and how many nodes and slots there are.
#[derive(Clone, Copy)]
struct BusNumbers {
    cycle: u32,
    turnaround: u32,
    window: u32,
    nodes: u8,
    slots: u8,
}

/// The number of slots of `bus`, where it is one of the two. Without a word of it there are as many as one trigger frame
/// flags.
fn read_slots(alloc: Global, bus: Section) -> Result<u8, SystemFault>
    ensures slots { IfOk result (λ slots. slots ≡ number_in (value_of slots_row (members_at bus.entry.table))) }
    ensures known { IfOk result IsSlots }
    ensures ok { OnOk result (range_at (prefix_of bus.entry.place) (members_at bus.entry.table) slots_row ≡ []) }
    ensures fault { IfErr result
        (IsFirstSystemFault (range_at (prefix_of bus.entry.place) (members_at bus.entry.table) slots_row)) }
{
    let Some(value) = bus.value("slots") else {
        return Ok(FIRST_SLOTS);
    };
    let Some(number) = value.as_integer() else {
        return Err(bus.range_fault(alloc, "slots"));
    };
    if number == i64::from(FIRST_SLOTS) {
        Ok(FIRST_SLOTS)
    } else if number == i64::from(MOST_SLOTS) {
        Ok(MOST_SLOTS)
    } else {
        Err(bus.range_fault(alloc, "slots"))
    }
}

/// The numbers of `bus`, where they are in range.
fn read_bus(alloc: Global, document: &Table) -> Result<BusNumbers, SystemFault>
    ensures numbers { IfOk result (IsBusOf (bus_of (table_view document.now))) }
    ensures ranges { IfOk result AreBusNumbers }
    ensures ok { OnOk result (flat_map (range_at (codes "bus.") (bus_of (table_view document.now))) bus_rows ≡ []) }
    ensures fault { IfErr result
        (IsFirstSystemFault (flat_map (range_at (codes "bus.") (bus_of (table_view document.now))) bus_rows)) }
{
    let bus = bus_of(document);
    let cycle = bus.number(alloc, "cycle", SHORTEST_CYCLE..=LONGEST_CYCLE)?;
    let turnaround = bus.number_or(alloc, "turnaround", 0, 0..=LONGEST_TURNAROUND)?;
    let window = bus.number(alloc, "window", SHORTEST_WINDOW..=LONGEST_WINDOW)?;
    let nodes = bus.number(alloc, "nodes", 1..=MAX_NODES)?;
    let slots = read_slots(alloc, bus)?;
    Ok(BusNumbers {
        cycle,
        turnaround,
        window,
        nodes: nodes as u8,
        slots,
    })
}

/// The policy of this name.
fn policy_named(name: &str) -> Option<Policy>
    ensures policy { result ≡ policy_named name.now }
{
    if name == "rm" {
        Some(Policy::Rm)
    } else if name == "dm" {
        Some(Policy::Dm)
    } else if name == "edf" {
        Some(Policy::Edf)
    } else {
        None
    }
}

/// The policy of `plan`, where it is one.
fn read_policy(alloc: Global, plan: Section) -> Result<Policy, SystemFault>
    ensures policy { IfOk result
        (λ policy. policy ≡ policy_of (text_in (value_of policy_row (members_at plan.entry.table)))) }
    ensures ok { OnOk result (range_at (prefix_of plan.entry.place) (members_at plan.entry.table) policy_row ≡ []) }
    ensures fault { IfErr result
        (IsFirstSystemFault (range_at (prefix_of plan.entry.place) (members_at plan.entry.table) policy_row)) }
{
    let Some(value) = plan.value("policy") else {
        return Ok(Policy::Rm);
    };
    let Some(name) = value.as_str() else {
        return Err(plan.range_fault(alloc, "policy"));
    };
    match policy_named(name) {
        Some(policy) => Ok(policy),
        None => Err(plan.range_fault(alloc, "policy")),
    }
}

/// The filling of this name.
fn fill_named(name: &str) -> Option<Fill>
    ensures fill { result ≡ fill_named name.now }
{
    if name == "prefix" {
        Some(Fill::Prefix)
    } else if name == "skip" {
        Some(Fill::Skip)
    } else {
        None
    }
}

/// The filling of `plan`, where it is one.
fn read_fill(alloc: Global, plan: Section) -> Result<Fill, SystemFault>
    ensures fill { IfOk result (λ fill. fill ≡ fill_of (text_in (value_of fill_row (members_at plan.entry.table)))) }
    ensures ok { OnOk result (range_at (prefix_of plan.entry.place) (members_at plan.entry.table) fill_row ≡ []) }
    ensures fault { IfErr result
        (IsFirstSystemFault (range_at (prefix_of plan.entry.place) (members_at plan.entry.table) fill_row)) }
{
    let Some(value) = plan.value("fill") else {
        return Ok(Fill::Prefix);
    };
    let Some(name) = value.as_str() else {
        return Err(plan.range_fault(alloc, "fill"));
    };
    match fill_named(name) {
        Some(fill) => Ok(fill),
        None => Err(plan.range_fault(alloc, "fill")),
    }
}

/// What `plan` sets: the policy, the number of cycles within which a repeat of the plan has to be
/// found, and the filling.
#[derive(Clone, Copy)]
struct Plan {
    policy: Policy,
    horizon: u32,
    fill: Fill,
}

/// What `plan` sets, where its values are in range.
fn read_plan(alloc: Global, document: &Table) -> Result<Plan, SystemFault>
    ensures values { IfOk result (IsPlanSet (plan_of (table_view document.now))) }
    ensures ranges { IfOk result (λ plan. (least_horizon ≤ plan.horizon) × (plan.horizon ≤ greatest_horizon)) }
    ensures ok { OnOk result (flat_map (range_at (codes "plan.") (plan_of (table_view document.now))) plan_rows ≡ []) }
    ensures fault { IfErr result
        (IsFirstSystemFault (flat_map (range_at (codes "plan.") (plan_of (table_view document.now))) plan_rows)) }
{
    let plan = plan_of(document);
    let policy = read_policy(alloc, plan)?;
    let horizon = plan.number_or(alloc, "horizon", 10_000, LEAST_HORIZON..=MAX_HORIZON)?;
    let fill = read_fill(alloc, plan)?;
    Ok(Plan {
        policy,
        horizon,
        fill,
    })
}

/// Whether one of the owners has the identifier.
fn has_owner(owners: &[Owner], id: u16) -> bool
    ensures among { result ≡ list_any (nat_eq id) (map id_of_owner owners.now) }
{
    owners.iter().any(|owner| id == owner.id)
}

/// Tests that no earlier owner has the identifier of an element of `async`.
fn check_new(alloc: Global, section: Section, id: u16, earlier: &[Owner]) -> Result<(), SystemFault>
    ensures ok { OnOk result (repeated_fault (prefix_of section.entry.place) (map id_of_owner earlier.now) id ≡ []) }
    ensures new { OnOk result (All (λ other. other.id ≢ id) earlier.now) }
    ensures fault { IfErr result
        (IsFirstSystemFault (repeated_fault (prefix_of section.entry.place) (map id_of_owner earlier.now) id)) }
{
    if has_owner(earlier, id) {
        Err(section.range_fault(alloc, "id"))
    } else {
        Ok(())
    }
}

/// The owner that an element of `async` describes, where its values are in range and no earlier
/// owner has its identifier.
fn read_owner(
    alloc: Global,
    index: usize,
    element: &Value,
    nodes: u8,
    earlier: &[Owner],
) -> Result<Owner, SystemFault>
    requires nodes { 1 ≤ nodes }
    ensures owner { IfOk result (λ owner. owner ≡ owner_of (view element.now)) }
    ensures valid { IfOk result (IsOwner nodes) }
    ensures new { IfOk result (λ owner. All (λ other. HaveOtherIds other owner) earlier.now) }
    ensures ok { OnOk result (ranges_in_element nodes (map id_of_owner earlier.now) index (view element.now) ≡ []) }
    ensures fault { IfErr result
        (IsFirstSystemFault (ranges_in_element nodes (map id_of_owner earlier.now) index (view element.now))) }
{
    let section = element_of(index, element);
    let ids = u32::from(LEAST_ASYNCHRONOUS)..=u32::from(GREATEST_IDENTIFIER);
    let id = section.number(alloc, "id", ids)? as u16;
    check_new(alloc, section, id, earlier)?;
    let node = section.number(alloc, "node", 0..=u32::from(nodes - 1))? as u8;
    Ok(Owner { id, node })
}

/// The owners that the elements of `async` describe.
fn read_owners(alloc: Global, elements: &[Value], nodes: u8) -> Result<Vec<Owner>, SystemFault>
    requires nodes { 1 ≤ nodes }
    ensures owners { IfOk result (λ owners. owners.items ≡ map owner_of (map view elements.now)) }
    ensures valid { IfOk result (λ owners. All (IsOwner nodes) owners.items) }
    ensures distinct { IfOk result (λ owners. AllPairs HaveOtherIds owners.items) }
    ensures ok { OnOk result
        (from_place (ranges_among nodes (map id_of (map view elements.now))) 0 (map view elements.now) ≡ []) }
    ensures fault { IfErr result
        (IsFirstSystemFault (from_place (ranges_among nodes (map id_of (map view elements.now))) 0
        (map view elements.now))) }
{
    let mut owners = Vec::new(alloc);
    for (index, element) in elements.iter().enumerate() {
        let owner = read_owner(alloc, index, element, nodes, owners.as_slice())?;
        owners.push(owner)?;
    }
    Ok(owners)
}

/// The layout of an elementary cycle, where it has room for what it needs.
fn layout_of(bus: BusNumbers) -> Result<Layout, SystemFault>
    requires ranges { AreBusNumbers bus }
    ensures layout { IfOk result
        (λ layout. layout ≡ record {
          cycle = bus.cycle;
          turnaround = bus.turnaround;
          window = bus.window;
          slots = bus.slots;
        }) }
    ensures known { IfOk result IsLayout }
    ensures ok { OnOk result (narrow_at (needed bus.turnaround bus.window bus.slots) bus.cycle ≡ []) }
    ensures fault { IfErr result
        (IsFirstSystemFault (narrow_at (needed bus.turnaround bus.window bus.slots) bus.cycle)) }
{
    match Layout::new(bus.cycle, bus.turnaround, bus.window, bus.slots) {
        Ok(layout) => Ok(layout),
        Err(LayoutFault::TooNarrow { need, have }) => Err(SystemFault::Narrow { need, have }),
        Err(_) => unreachable!(),
    }
}

/// The system that a document describes, whose keys are known and hold their kinds.
#[tactic(auto, using(crate::proofs::SystemFirst::first_in_front))]
fn read_values(alloc: Global, document: &Table) -> Result<System, SystemFault>
    ensures system { IfOk result (λ system. system ≡ described_by (table_view document.now)) }
    ensures valid { IfOk result IsSystem }
    ensures ok { OnOk result (range_faults (table_view document.now) ++ narrow_faults (table_view document.now) ≡ []) }
    ensures fault { IfErr result
        (IsFirstSystemFault (range_faults (table_view document.now) ++ narrow_faults (table_view document.now))) }
{
    let bus = read_bus(alloc, document)?;
    let plan = read_plan(alloc, document)?;
    let owners = read_owners(alloc, elements_of(document), bus.nodes)?;
    let layout = layout_of(bus)?;
    let rules = Rules {
        nodes: bus.nodes,
        slots: bus.slots,
        policy: plan.policy,
        fill: plan.fill,
        window: bus.window,
        horizon: u64::from(plan.horizon),
    };
    Ok(System {
        layout,
        rules,
        owners: OwnerList::of(owners),
    })
}

/// The system that a document describes.
#[tactic(auto, using(crate::proofs::SystemFirst::first_in_front))]
fn read_tables(alloc: Global, document: &Table) -> Result<System, SystemFault>
    ensures system { IfOk result (λ system. system ≡ described_by (table_view document.now)) }
    ensures valid { IfOk result IsSystem }
    ensures ok { OnOk result (faults_of (table_view document.now) ≡ []) }
    ensures fault { IfErr result (IsFirstSystemFault (faults_of (table_view document.now))) }
{
    check_keys(alloc, document)?;
    check_kinds(alloc, document)?;
    read_values(alloc, document)
}

/// Reads a system file. What is wrong with it is looked for in this order, and the first fault is
/// answered: bytes that are not TOML; unknown keys, at the top, in `bus`, in `plan` and in each
/// element of `async`, in one table the first in byte order; keys that are missing or hold another
/// kind, in the order of the format; values out of range, in the same order; a cycle that is too
/// narrow.
///
/// # Errors
///
/// The first fault, or `Memory` where memory ran out.
#[tactic(auto, using(crate::proofs::SystemFirst::document_fault, crate::proofs::SystemFirst::no_document))]
pub fn read_system(alloc: Global, bytes: &[u8]) -> Result<System, SystemFault>
    ensures ok { IfOk result (λ system. system_of bytes.now ≡ Ok system) }
    ensures valid { IfOk result IsSystem }
    ensures fault { IfErr result (λ fault. fault ≢ Memory → system_of bytes.now ≡ Err fault) }
{
    let document = read_document(alloc, bytes)?;
    read_tables(alloc, &document)
}
