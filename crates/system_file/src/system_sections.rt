//! The tables of a system file, and the tests of what stands at their keys.

ghost use Rattle.std.specs.Prelude.{◌≡◌, ◌≤◌, ◌++◌, ◌∷◌, List, [], Some, None, IfErr, IfOk, OnOk, map, option_map, pos};
ghost use Rattle.std.specs.Option.{option_or};
ghost use Rattle.std.specs.Range.{range_inclusive_start, range_inclusive_end};
ghost use Rattle.std.specs.String.{string_bytes};
ghost use Rattle.toml.specs.Data.{get_member, integer};
ghost use Rattle.toml.specs.View.{table_view, view};
ghost use Rattle.system_file.specs.SystemFile.{is_among, is_whole_from, kind_fault, number_in};
ghost use Rattle.system_file.specs.SystemFile.{range_fault, unknown_in, unknown_keys};
ghost use Rattle.system_file.specs.SystemParts.{IsFirstSystemFault, first_key, is_kind, members_at, prefix_of, whole_in};
ghost use Rattle.system_file.specs.declared.system_fault.SystemFault.{SystemFault};
ghost use Rattle.system_file.specs.declared.system_fault.SystemFault.TheVariants.{Key, Range};

use crate::system_fault::{PathText, SystemFault};
use std::alloc::{AllocError, Global};
use std::ops::RangeInclusive;
use toml::{Table, Value};

/// Where a key stands.
#[derive(Clone, Copy)]
pub(crate) enum Place {
    Top,
    Bus,
    Plan,
    Element { index: usize },
}

impl Place {
    /// The path of a key of this place.
    fn path(self, alloc: Global, key: &str) -> Result<PathText, AllocError>
        ensures path { IfOk result (λ path. path ≡ prefix_of self ++ key.now) }
    {
        let text = match self {
            Place::Top => String::from_str(alloc, key),
            Place::Bus => format!(in alloc; "bus.{key}"),
            Place::Plan => format!(in alloc; "plan.{key}"),
            Place::Element { index } => format!(in alloc; "async.{index}.{key}"),
        };
        Ok(PathText::of(text?))
    }
}

/// What a key is to hold.
#[derive(Clone, Copy)]
pub(crate) enum TomlKind {
    Integer,
    Text,
    Table,
    Array,
}

impl TomlKind {
    /// Whether a value is of this kind.
    fn is(self, value: &Value) -> bool
        ensures kind { result ≡ is_kind self (view value.now) }
    {
        match self {
            TomlKind::Integer => value.is_integer(),
            TomlKind::Text => value.is_str(),
            TomlKind::Table => value.is_table(),
            TomlKind::Array => value.is_array(),
        }
    }
}

/// The number that a value is, where it is an integer in the range.
fn number_within(value: &Value, range: RangeInclusive<u32>) -> Option<u32>
    ensures number { result ≡ whole_in (range_inclusive_start range) (range_inclusive_end range) (view value.now) }
{
    let integer = value.as_integer()?;
    let number = u32::try_from(integer).ok()?;
    if *range.start() <= number && number <= *range.end() {
        Some(number)
    } else {
        None
    }
}

/// A table of the file, where there is one at its place.
#[derive(Clone, Copy)]
pub(crate) struct Section<'a> {
    pub(crate) place: Place,
    pub(crate) table: Option<&'a Table>,
}

impl<'a> Section<'a> {
    /// The value at a key.
    #[tactic(auto, using(crate::proofs::SystemKeys::value_at))]
    pub(crate) fn value(self, key: &str) -> Option<&'a Value>
        ensures value { option_map (λ value. view value.now) result ≡ get_member key.now (members_at self.entry.table) }
    {
        let table = self.table?;
        table.get(key)
    }

    /// The fault that a key is unknown or missing, or that it holds another kind.
    fn key_fault(self, alloc: Global, key: &str) -> SystemFault
        ensures first { (rest : List SystemFault)
            → IsFirstSystemFault (Key (prefix_of self.entry.place ++ key.now) ∷ rest) result }
    {
        match self.place.path(alloc, key) {
            Ok(path) => SystemFault::Key { path },
            Err(_) => SystemFault::Memory,
        }
    }

    /// The fault that the value of a key is out of range.
    pub(crate) fn range_fault(self, alloc: Global, key: &str) -> SystemFault
        ensures first { (rest : List SystemFault)
            → IsFirstSystemFault (Range (prefix_of self.entry.place ++ key.now) ∷ rest) result }
    {
        match self.place.path(alloc, key) {
            Ok(path) => SystemFault::Range { path },
            Err(_) => SystemFault::Memory,
        }
    }

    /// The first key, in byte order, that is none of these.
    fn unknown_key(self, known: &[&str]) -> Option<&'a str>
        ensures key { option_map (λ key. key.now) result
            ≡ first_key (unknown_keys (map (λ known. known.now) known.now) (members_at self.entry.table)) }
    {
        let table = self.table?;
        let key = first_unknown(table, known)?;
        Some(key.as_str())
    }

    /// Tests that every key is one of these.
    #[tactic(auto, using(crate::proofs::SystemFirst::none_unknown, crate::proofs::SystemFirst::first_unknown))]
    pub(crate) fn check_keys(self, alloc: Global, known: &[&str]) -> Result<(), SystemFault>
        ensures ok { OnOk result
            (unknown_in (prefix_of self.entry.place)
            (map (λ known. known.now) known.now) (members_at self.entry.table) ≡ []) }
        ensures fault { IfErr result
            (IsFirstSystemFault (unknown_in (prefix_of self.entry.place)
            (map (λ known. known.now) known.now) (members_at self.entry.table))) }
    {
        match self.unknown_key(known) {
            Some(key) => Err(self.key_fault(alloc, key)),
            None => Ok(()),
        }
    }

    /// Tests that a key holds this kind; where it is not needed it may be absent.
    pub(crate) fn check_kind(
        self,
        alloc: Global,
        key: &str,
        kind: TomlKind,
        needed: bool,
    ) -> Result<(), SystemFault>
        ensures ok { OnOk result
            (kind_fault (prefix_of self.entry.place ++ key.now) (is_kind kind) needed
            (get_member key.now (members_at self.entry.table)) ≡ []) }
        ensures fault { IfErr result
            (IsFirstSystemFault (kind_fault (prefix_of self.entry.place ++ key.now) (is_kind kind) needed
            (get_member key.now (members_at self.entry.table)))) }
    {
        match self.value(key) {
            Some(value) => {
                if kind.is(value) {
                    Ok(())
                } else {
                    Err(self.key_fault(alloc, key))
                }
            }
            None => {
                if needed {
                    Err(self.key_fault(alloc, key))
                } else {
                    Ok(())
                }
            }
        }
    }

    /// The integer at a key, where it is there and in the range.
    pub(crate) fn number(
        self,
        alloc: Global,
        key: &str,
        range: RangeInclusive<u32>,
    ) -> Result<u32, SystemFault>
        ensures value { IfOk result
            (λ number. number ≡ number_in (option_or (get_member key.now (members_at self.entry.table)) None)) }
        ensures within { IfOk result
            (λ number. (range_inclusive_start range ≤ number) × (number ≤ range_inclusive_end range)) }
        ensures ok { OnOk result
            (range_fault (prefix_of self.entry.place ++ key.now)
            (is_whole_from (range_inclusive_start range) (range_inclusive_end range))
            (option_or (get_member key.now (members_at self.entry.table)) None) ≡ []) }
        ensures fault { IfErr result
            (IsFirstSystemFault (range_fault (prefix_of self.entry.place ++ key.now)
            (is_whole_from (range_inclusive_start range) (range_inclusive_end range))
            (option_or (get_member key.now (members_at self.entry.table)) None))) }
    {
        match self.value(key) {
            Some(value) => match number_within(value, range) {
                Some(number) => Ok(number),
                None => Err(self.range_fault(alloc, key)),
            },
            None => Err(self.range_fault(alloc, key)),
        }
    }

    /// The same, where the key may be absent and then stands for a number of the range.
    pub(crate) fn number_or(
        self,
        alloc: Global,
        key: &str,
        default: u32,
        range: RangeInclusive<u32>,
    ) -> Result<u32, SystemFault>
        requires above { range_inclusive_start range ≤ default }
        requires below { default ≤ range_inclusive_end range }
        ensures value { IfOk result
            (λ number. number ≡ number_in
            (option_or (get_member key.now (members_at self.entry.table)) (Some (integer (pos default))))) }
        ensures within { IfOk result
            (λ number. (range_inclusive_start range ≤ number) × (number ≤ range_inclusive_end range)) }
        ensures ok { OnOk result
            (range_fault (prefix_of self.entry.place ++ key.now)
            (is_whole_from (range_inclusive_start range) (range_inclusive_end range))
            (option_or (get_member key.now (members_at self.entry.table)) (Some (integer (pos default)))) ≡ []) }
        ensures fault { IfErr result
            (IsFirstSystemFault (range_fault (prefix_of self.entry.place ++ key.now)
            (is_whole_from (range_inclusive_start range) (range_inclusive_end range))
            (option_or (get_member key.now (members_at self.entry.table)) (Some (integer (pos default)))))) }
    {
        match self.value(key) {
            Some(value) => match number_within(value, range) {
                Some(number) => Ok(number),
                None => Err(self.range_fault(alloc, key)),
            },
            None => Ok(default),
        }
    }
}

/// The first key of a table, in byte order, that is none of these.
fn first_unknown<'a>(table: &'a Table, known: &[&str]) -> Option<&'a String>
    ensures key { option_map (λ key. string_bytes key.now) result
        ≡ first_key (unknown_keys (map (λ known. known.now) known.now) (table_view table.now)) }
{
    table.keys().find(|key| !is_among(key.as_str(), known))
}

/// Whether a key is one of these.
fn is_among(key: &str, keys: &[&str]) -> bool
    ensures among { result ≡ is_among (map (λ known. known.now) keys.now) key.now }
{
    keys.iter().any(|known| key == *known)
}
