//! How deep a value is nested: scalars and empty compounds one level, others one more than their deepest part.
ghost use Rattle.std.specs.Prelude.{◌≡◌, ◌≤◌, ◌↔◌, IsTrue, max};
ghost use Rattle.amqp_data.specs.Data.{depth, items_depth, pairs_depth};
ghost use Rattle.amqp_data.specs.View.{view, items_view, pairs_view};

use crate::value::{Described, Entry, OrderedMap, Value, ValueArray, ValueList};

/// Whether the value is nested at most so many levels deep: a scalar and an empty compound have one level.
#[cycle(nests)]
pub fn nests_within(value: &Value, levels: u8) -> bool
    ensures { IsTrue result ↔ depth (view value.now) ≤ levels }
{
    if levels == 0 {
        return false;
    }
    match value {
        Value::List(list) => list_within(list, levels - 1),
        Value::Map(map) => map_within(map, levels - 1),
        Value::Array(array) => array_within(array, levels - 1),
        Value::Described(described) => described_within(described, levels - 1),
        Value::Null
        | Value::Bool(_)
        | Value::Ubyte(_)
        | Value::Ushort(_)
        | Value::Uint(_)
        | Value::Ulong(_)
        | Value::Byte(_)
        | Value::Short(_)
        | Value::Int(_)
        | Value::Long(_)
        | Value::Char(_)
        | Value::Timestamp(_)
        | Value::Uuid(_)
        | Value::Binary(_)
        | Value::String(_)
        | Value::Symbol(_) => true,
    }
}

#[cycle(nests)]
fn described_within(described: &Described, levels: u8) -> bool
    ensures { IsTrue result ↔ max (depth described.now.0) (depth described.now.1) ≤ levels }
{
    nests_within(&described.parts.descriptor, levels)
        && nests_within(&described.parts.value, levels)
}

#[cycle(nests)]
fn list_within(list: &ValueList, levels: u8) -> bool
    ensures { IsTrue result ↔ items_depth list.now ≤ levels }
{
    values_nest_within(&list.values, levels)
}

#[cycle(nests)]
fn array_within(array: &ValueArray, levels: u8) -> bool
    ensures { IsTrue result ↔ items_depth array.now.1 ≤ levels }
{
    values_nest_within(&array.values, levels)
}

/// Whether each of the values is nested at most so many levels deep by itself.
#[cycle(nests)]
pub fn values_nest_within(values: &[Value], levels: u8) -> bool
    ensures { IsTrue result ↔ items_depth (items_view values.now) ≤ levels }
{
    for value in values {
        if !nests_within(value, levels) {
            return false;
        }
    }
    true
}

#[cycle(nests)]
fn map_within(map: &OrderedMap, levels: u8) -> bool
    ensures { IsTrue result ↔ pairs_depth map.now ≤ levels }
{
    entries_nest_within(&map.entries, levels)
}

#[cycle(nests)]
fn entry_within(entry: &Entry, levels: u8) -> bool
    ensures { IsTrue result ↔ max (depth (view entry.now.key)) (depth (view entry.now.value)) ≤ levels }
{
    nests_within(&entry.key, levels) && nests_within(&entry.value, levels)
}

/// Whether each key and each value is nested at most so many levels deep by itself.
#[cycle(nests)]
pub fn entries_nest_within(entries: &[Entry], levels: u8) -> bool
    ensures { IsTrue result ↔ pairs_depth (pairs_view entries.now) ≤ levels }
{
    for entry in entries {
        if !entry_within(entry, levels) {
            return false;
        }
    }
    true
}
