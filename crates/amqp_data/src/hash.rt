//! The hash of a value: its kind, of compounds how many parts they have, and what it holds. So a stranger cannot choose
//! keys of one hash by their form, as lists of nulls of many lengths.
ghost use Rattle.std.specs.Prelude.{◌≡◌, ◌++◌};
ghost use Rattle.std.specs.List.{fold};
ghost use Rattle.std.specs.Hash.{u8 as one_byte, usize};
ghost use Rattle.amqp_data.specs.Data.{count, pair_count};
ghost use Rattle.amqp_data.specs.View.{view, items_view, pairs_view};
ghost use Rattle.amqp_data.specs.Same.{hashed, hashed_items, hashed_pairs, kind_number, value_number};
ghost use Rattle.amqp_data.specs.SameLaws.{hashed_alike};

use crate::value::{Described, Entry, OrderedMap, Value, ValueArray, ValueList};
use std::hash::{Hash, Hasher};

impl Hash for Value {
    ghost hash_input = { λ a. hashed (view a) };

    ghost respects_eq = { hashed_alike };

    fn hash<H: Hasher>(&self, state: &mut H) {
        feed_value(self, state)
    }
}

/// The place of the value's kind among the kinds of values.
fn value_number(value: &Value) -> u8
    ensures { result ≡ value_number (view value.now) }
{
    match value {
        Value::Null => 0,
        Value::Bool(_) => 1,
        Value::Ubyte(_) => 2,
        Value::Ushort(_) => 3,
        Value::Uint(_) => 4,
        Value::Ulong(_) => 5,
        Value::Byte(_) => 6,
        Value::Short(_) => 7,
        Value::Int(_) => 8,
        Value::Long(_) => 9,
        Value::Char(_) => 10,
        Value::Timestamp(_) => 11,
        Value::Uuid(_) => 12,
        Value::Binary(_) => 13,
        Value::String(_) => 14,
        Value::Symbol(_) => 15,
        Value::List(_) => 16,
        Value::Map(_) => 17,
        Value::Array(_) => 18,
        Value::Described(_) => 19,
    }
}

#[cycle(feed)]
#[tactic(auto, unfolding(crate::specs::Same::hashed, crate::specs::Same::hashed_scalar))]
fn feed_value<H: Hasher>(value: &Value, state: &mut H)
    ensures { state.new ≡ fold H.write state.old (hashed (view value.now)) }
{
    state.write_u8(value_number(value));
    match value {
        Value::Null => {}
        Value::Bool(b) => b.hash(state),
        Value::Ubyte(n) => n.hash(state),
        Value::Ushort(n) => n.hash(state),
        Value::Uint(n) => n.hash(state),
        Value::Ulong(n) => n.hash(state),
        Value::Byte(n) => n.hash(state),
        Value::Short(n) => n.hash(state),
        Value::Int(n) => n.hash(state),
        Value::Long(n) => n.hash(state),
        Value::Char(c) => c.hash(state),
        Value::Timestamp(t) => t.milliseconds.hash(state),
        Value::Uuid(u) => state.write(&u.bytes),
        Value::Binary(s) => s.hash(state),
        Value::String(s) => s.hash(state),
        Value::Symbol(s) => s.hash(state),
        Value::List(list) => feed_list(list, state),
        Value::Map(map) => feed_map(map, state),
        Value::Array(array) => feed_array(array, state),
        Value::Described(described) => feed_described(described, state),
    }
}

#[cycle(feed)]
fn feed_list<H: Hasher>(list: &ValueList, state: &mut H)
    ensures { state.new ≡ fold H.write state.old (usize (count list.now) ++ hashed_items list.now) }
{
    state.write_usize(list.len());
    feed_values(&list.values, state)
}

#[cycle(feed)]
fn feed_array<H: Hasher>(array: &ValueArray, state: &mut H)
    ensures { state.new ≡ fold H.write state.old (one_byte (kind_number array.now.0) ++ (usize (count array.now.1) ++ hashed_items array.now.1)) }
{
    state.write_u8(array.kind.number());
    state.write_usize(array.len());
    feed_values(&array.values, state)
}

#[cycle(feed)]
fn feed_map<H: Hasher>(map: &OrderedMap, state: &mut H)
    ensures { state.new ≡ fold H.write state.old (usize (pair_count map.now) ++ hashed_pairs map.now) }
{
    state.write_usize(map.len());
    feed_entries(&map.entries, state)
}

#[cycle(feed)]
fn feed_described<H: Hasher>(described: &Described, state: &mut H)
    ensures { state.new ≡ fold H.write state.old (hashed described.now.0 ++ hashed described.now.1) }
{
    feed_value(&described.parts.descriptor, state);
    feed_value(&described.parts.value, state)
}

#[cycle(feed)]
fn feed_values<H: Hasher>(values: &[Value], state: &mut H)
    ensures { state.new ≡ fold H.write state.old (hashed_items (items_view values.now)) }
{
    for value in values {
        feed_value(value, state);
    }
}

#[cycle(feed)]
fn feed_entries<H: Hasher>(entries: &[Entry], state: &mut H)
    ensures { state.new ≡ fold H.write state.old (hashed_pairs (pairs_view entries.now)) }
{
    for entry in entries {
        feed_value(&entry.key, state);
        feed_value(&entry.value, state);
    }
}
