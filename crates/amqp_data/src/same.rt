//! When two values are the same: they are of one kind and hold the same. When two lists are, and two maps.
ghost use Rattle.std.specs.Prelude.{◌≡◌, ◌&&◌, IsTrue, false};
ghost use Rattle.std.specs.Str.{bytes_eq};
ghost use Rattle.amqp_data.specs.View.{view, items_view, pairs_view};
ghost use Rattle.amqp_data.specs.Same.{same, same_items, same_pairs, same_kind};
ghost use Rattle.amqp_data.specs.SameLaws.{partial_laws, equal_laws, items_partial_laws, items_laws, pairs_partial_laws, pairs_laws};

use crate::kind::same_kind;
use crate::value::{Described, Entry, OrderedMap, Value, ValueArray, ValueList};

/// Two values are equal where they are of one kind and hold the same: `Uint(1)` is not `Ulong(1)`, and lists are equal item
/// by item. The order of a map's entries counts, as section 1.6.23 asks: two maps with the same entries in another order
/// are not equal. The kind of an array counts also where it is empty.
impl PartialEq for Value {
    ghost eq = { λ a b. same (view a) (view b) };

    ghost laws = { partial_laws };

    fn eq(&self, other: &Value) -> bool {
        !differ_at_once(self, other) && same_values(self, other)
    }
}

impl Eq for Value {
    ghost laws = { equal_laws };
}

/// Two lists are equal where they have the same values in the same order.
impl PartialEq for ValueList {
    ghost eq = { same_items };

    ghost laws = { items_partial_laws };

    fn eq(&self, other: &ValueList) -> bool {
        same_lists(self, other)
    }
}

impl Eq for ValueList {
    ghost laws = { items_laws };
}

/// Two maps are equal where they have the same entries in the same order.
impl PartialEq for OrderedMap {
    ghost eq = { same_pairs };

    ghost laws = { pairs_partial_laws };

    fn eq(&self, other: &OrderedMap) -> bool {
        same_maps(self, other)
    }
}

impl Eq for OrderedMap {
    ghost laws = { pairs_laws };
}

/// Whether two texts are seen to differ by their lengths or their last bytes: the keys of one map seldom have the same of both.
#[tactic(auto, unfolding(crate::specs::Same::same, crate::specs::Same::same_scalar))]
fn differ_at_once(a: &Value, b: &Value) -> bool
    ensures { IsTrue result → same (view a.now) (view b.now) ≡ false }
{
    match a {
        Value::String(s) =>
            matches!(b, Value::String(t) if ends_differ(s.as_bytes(), t.as_bytes())),
        Value::Symbol(s) =>
            matches!(b, Value::Symbol(t) if ends_differ(s.as_slice(), t.as_slice())),
        _ => false,
    }
}

fn ends_differ(a: &[u8], b: &[u8]) -> bool
    ensures { IsTrue result → bytes_eq a.now b.now ≡ false }
{
    match (a, b) {
        ([.., m], [.., n]) => a.len() != b.len() || *m != *n,
        _ => a.len() != b.len(),
    }
}

#[cycle(same)]
#[tactic(auto, unfolding(crate::specs::Same::same, crate::specs::Same::same_scalar))]
fn same_values(a: &Value, b: &Value) -> bool
    ensures { result ≡ same (view a.now) (view b.now) }
{
    match a {
        Value::Null => matches!(b, Value::Null),
        Value::Bool(m) => matches!(b, Value::Bool(n) if *m == *n),
        Value::Ubyte(m) => matches!(b, Value::Ubyte(n) if *m == *n),
        Value::Ushort(m) => matches!(b, Value::Ushort(n) if *m == *n),
        Value::Uint(m) => matches!(b, Value::Uint(n) if *m == *n),
        Value::Ulong(m) => matches!(b, Value::Ulong(n) if *m == *n),
        Value::Byte(m) => matches!(b, Value::Byte(n) if *m == *n),
        Value::Short(m) => matches!(b, Value::Short(n) if *m == *n),
        Value::Int(m) => matches!(b, Value::Int(n) if *m == *n),
        Value::Long(m) => matches!(b, Value::Long(n) if *m == *n),
        Value::Char(m) => matches!(b, Value::Char(n) if *m == *n),
        Value::Timestamp(m) => matches!(b, Value::Timestamp(n) if m.milliseconds == n.milliseconds),
        Value::Uuid(m) => matches!(b, Value::Uuid(n) if m.bytes.as_slice() == n.bytes.as_slice()),
        Value::Binary(s) => matches!(b, Value::Binary(t) if s.as_slice() == t.as_slice()),
        Value::String(s) => matches!(b, Value::String(t) if s.as_bytes() == t.as_bytes()),
        Value::Symbol(s) => matches!(b, Value::Symbol(t) if s.as_slice() == t.as_slice()),
        Value::List(v) => matches!(b, Value::List(w) if same_lists(v, w)),
        Value::Map(v) => matches!(b, Value::Map(w) if same_maps(v, w)),
        Value::Array(v) => matches!(b, Value::Array(w) if same_arrays(v, w)),
        Value::Described(v) => matches!(b, Value::Described(w) if same_described(v, w)),
    }
}

#[cycle(same)]
fn same_arrays(a: &ValueArray, b: &ValueArray) -> bool
    ensures { result ≡ (same_kind a.now.0 b.now.0 && same_items a.now.1 b.now.1) }
{
    same_kind(a.kind, b.kind) && same_slices(&a.values, &b.values)
}

#[cycle(same)]
fn same_described(a: &Described, b: &Described) -> bool
    ensures { result ≡ (same a.now.0 b.now.0 && same a.now.1 b.now.1) }
{
    same_values(&a.parts.descriptor, &b.parts.descriptor)
        && same_values(&a.parts.value, &b.parts.value)
}

#[cycle(same)]
fn same_lists(a: &ValueList, b: &ValueList) -> bool
    ensures { result ≡ same_items a.now b.now }
{
    same_slices(&a.values, &b.values)
}

#[cycle(same)]
fn same_slices(a: &[Value], b: &[Value]) -> bool
    ensures { result ≡ same_items (items_view a.now) (items_view b.now) }
{
    if a.len() != b.len() {
        return false;
    }
    for i in 0..a.len() {
        if !same_values(&a[i], &b[i]) {
            return false;
        }
    }
    true
}

#[cycle(same)]
fn same_maps(a: &OrderedMap, b: &OrderedMap) -> bool
    ensures { result ≡ same_pairs a.now b.now }
{
    same_entries(&a.entries, &b.entries)
}

#[cycle(same)]
fn same_entries(a: &[Entry], b: &[Entry]) -> bool
    ensures { result ≡ same_pairs (pairs_view a.now) (pairs_view b.now) }
{
    if a.len() != b.len() {
        return false;
    }
    for i in 0..a.len() {
        if !same_entry(&a[i], &b[i]) {
            return false;
        }
    }
    true
}

#[cycle(same)]
fn same_entry(a: &Entry, b: &Entry) -> bool
    ensures { result ≡ (same (view a.now.key) (view b.now.key) && same (view a.now.value) (view b.now.value)) }
{
    same_values(&a.key, &b.key) && same_values(&a.value, &b.value)
}
