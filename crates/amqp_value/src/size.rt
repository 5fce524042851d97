//! How long the canonical spelling of a value is.
ghost use Rattle.std.specs.Prelude.{◌≡◌, ◌≤◌, ◌<◌, ◌+◌, ◌*◌, ◌^◌, ◌⊎◌, ℕ, length, OnOk, IfOk, IfErr, IsOk, Err};
ghost use Rattle.amqp_data.specs.Data.{ulong, uint, int, long, list, dict, array, described as described_of, depth, AreOfKind};
ghost use Rattle.amqp_data.specs.View.{view, items_view, pairs_view};
ghost use Rattle.amqp_value.specs.Code.{octets, block, content};
ghost use Rattle.amqp_value.specs.Canonical.{canonical, canonical_scalar, IsSized};
ghost use Rattle.amqp_value.specs.Writing.{Measures, MeasuresAll, MeasuresPairs, MeasuresEntry, MeasuresText, MeasuresBlock, compound_length};

use crate::code::SizeWidth;
use crate::elements::{element_code, elements_size};
use crate::error::ValueError;
use crate::width::{compound_width, text_width};
use amqp_data::{Described, ElementKind, Entry, Uuid, Value, nests_within};

pub(crate) const SIZE_LIMIT: u64 = 0x1_0000_0000;

/// How deep a value may be nested.
pub(crate) const MAX_DEPTH: u8 = 32;

/// The length of a text and of its length, unless that has no room.
pub(crate) fn text_size(width: SizeWidth, bytes: &[u8]) -> Option<u64>
    ensures { MeasuresText width result bytes.now }
{
    let length = bytes.len() as u64;
    if length < SIZE_LIMIT {
        Some(length + width.octets())
    } else {
        None
    }
}

/// The length of an identifier.
pub(crate) fn uuid_size(uuid: &Uuid) -> u64
    ensures value { result ≡ length uuid.now.bytes }
    ensures sixteen { length uuid.now.bytes ≡ 16 }
{
    let bytes: &[u8] = &uuid.bytes;
    bytes.len() as u64
}

/// The same behind a constructor, at the least width.
pub(crate) fn block_size(bytes: &[u8]) -> Option<u64>
    ensures { MeasuresBlock result bytes.now }
{
    let size = text_size(text_width(bytes), bytes)?;
    Some(size + 1)
}

#[tactic(auto, unfolding(crate::specs::Canonical::canonical_scalar, crate::specs::Canonical::laid))]
fn uint_size(n: u32) -> u64
    ensures value { result ≡ length (canonical_scalar (uint n)) }
    ensures small { result ≤ 9 }
{
    if n == 0 {
        1
    } else if n < 256 {
        2
    } else {
        5
    }
}

#[tactic(auto, unfolding(crate::specs::Canonical::canonical_scalar, crate::specs::Canonical::laid))]
fn ulong_size(n: u64) -> u64
    ensures value { result ≡ length (canonical_scalar (ulong n)) }
    ensures small { result ≤ 9 }
{
    if n == 0 {
        1
    } else if n < 256 {
        2
    } else {
        9
    }
}

#[tactic(auto, unfolding(crate::specs::Canonical::canonical_scalar, crate::specs::Canonical::laid))]
fn int_size(n: i32) -> u64
    ensures value { result ≡ length (canonical_scalar (int n)) }
    ensures small { result ≤ 9 }
{
    if n >= -128 && n <= 127 { 2 } else { 5 }
}

#[tactic(auto, unfolding(crate::specs::Canonical::canonical_scalar, crate::specs::Canonical::laid))]
fn long_size(n: i64) -> u64
    ensures value { result ≡ length (canonical_scalar (long n)) }
    ensures small { result ≤ 9 }
{
    if n >= -128 && n <= 127 { 2 } else { 9 }
}

/// The length of a constructor, a size, a count and the items.
fn compound_size(count: u64, items: u64) -> u64
    requires { items < 2 ^ 32 }
    ensures { result ≡ compound_length count items }
{
    items + 1 + 2 * compound_width(count, items).octets()
}

fn array_size(kind: ElementKind, values: &[Value]) -> Option<u64>
    requires { AreOfKind kind (items_view values.now) }
    ensures { Measures result (array kind (items_view values.now)) }
{
    let code = element_code(kind, values);
    let items = elements_size(code, values)?;
    Some(compound_size(values.len() as u64, items))
}

/// The length of a value's canonical spelling, unless a length has no room.
#[cycle(size)]
pub(crate) fn value_size(value: &Value) -> Option<u64>
    ensures { Measures result (view value.now) }
{
    match value {
        Value::Null => Some(1),
        Value::Bool(_) => Some(1),
        Value::Ubyte(_) => Some(2),
        Value::Ushort(_) => Some(3),
        Value::Uint(n) => Some(uint_size(*n)),
        Value::Ulong(n) => Some(ulong_size(*n)),
        Value::Byte(_) => Some(2),
        Value::Short(_) => Some(3),
        Value::Int(n) => Some(int_size(*n)),
        Value::Long(n) => Some(long_size(*n)),
        Value::Char(_) => Some(5),
        Value::Timestamp(_) => Some(9),
        Value::Uuid(uuid) => Some(uuid_size(uuid) + 1),
        Value::Binary(bytes) => block_size(bytes.as_slice()),
        Value::String(text) => block_size(text.as_bytes()),
        Value::Symbol(symbol) => block_size(symbol.as_slice()),
        Value::List(list) => list_size(list.as_slice()),
        Value::Map(map) => map_size(map.entries()),
        Value::Array(array) => array_size(array.kind(), array.as_slice()),
        Value::Described(described) => described_size(described),
    }
}

#[cycle(size)]
fn described_size(described: &Described) -> Option<u64>
    ensures { Measures result (described_of described.now.0 described.now.1) }
{
    let descriptor = value_size(described.descriptor())?;
    let value = value_size(described.value())?;
    descriptor.checked_add(value)?.checked_add(1)
}

#[cycle(size)]
fn list_size(values: &[Value]) -> Option<u64>
    ensures { Measures result (list (items_view values.now)) }
{
    if values.is_empty() {
        return Some(1);
    }
    let items = items_size(values)?;
    Some(compound_size(values.len() as u64, items))
}

/// The length of values one after another, unless it has no room beside a count.
#[cycle(size)]
pub(crate) fn items_size(values: &[Value]) -> Option<u64>
    ensures { MeasuresAll result (items_view values.now) }
{
    let mut total: u64 = 0;
    for value in values {
        let size = value_size(value)?;
        if size >= SIZE_LIMIT - 4 - total {
            return None;
        }
        total += size;
    }
    Some(total)
}

#[cycle(size)]
fn map_size(entries: &[Entry]) -> Option<u64>
    ensures { Measures result (dict (pairs_view entries.now)) }
{
    let items = pairs_size(entries)?;
    Some(compound_size(2 * entries.len() as u64, items))
}

#[cycle(size)]
fn entry_size(entry: &Entry) -> Option<u64>
    ensures { MeasuresEntry result (view entry.now.key) (view entry.now.value) }
{
    let key = value_size(&entry.key)?;
    let value = value_size(&entry.value)?;
    key.checked_add(value)
}

/// The length of keys and values in turn, unless it has no room beside a count.
#[cycle(size)]
pub(crate) fn pairs_size(entries: &[Entry]) -> Option<u64>
    ensures { MeasuresPairs result (pairs_view entries.now) }
{
    let mut total: u64 = 0;
    for entry in entries {
        let size = entry_size(entry)?;
        if size >= SIZE_LIMIT - 4 - total {
            return None;
        }
        total += size;
    }
    Some(total)
}

/// The number of bytes of the one spelling that `to_vec` writes; takes no memory.
pub fn serialized_size(value: &Value) -> Result<u64, ValueError>
    ensures ok { IfOk result (λ n. n ≡ length (canonical (view value.now))) }
    ensures nests { OnOk result (depth (view value.now) ≤ 32) }
    ensures sized { OnOk result (IsSized (view value.now)) }
    ensures too_deep { 32 < depth (view value.now) → result ≡ Err ValueError.Depth }
    ensures deep { result ≡ Err ValueError.Depth → 32 < depth (view value.now) }
    ensures size { result ≡ Err ValueError.Size → IsSized (view value.now) → ⊥ }
    ensures too_long { depth (view value.now) ≤ 32 → (IsSized (view value.now) → ⊥) → result ≡ Err ValueError.Size }
    ensures always { depth (view value.now) ≤ 32 → IsSized (view value.now) → IsOk result }
    ensures refused { IfErr result (λ e. (e ≡ ValueError.Depth) ⊎ (e ≡ ValueError.Size)) }
{
    if !nests_within(value, MAX_DEPTH) {
        return Err(ValueError::Depth);
    }
    match value_size(value) {
        Some(size) => Ok(size),
        None => Err(ValueError::Size),
    }
}
