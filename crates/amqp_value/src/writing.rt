//! Values, canonically spelled.
ghost use Rattle.std.specs.Prelude.{◌≡◌, ◌≤◌, ◌<◌, ◌+◌, ◌*◌, ◌^◌, ◌++◌, ◌∷◌, [], ℕ, suc, List, length, OnOk, IfOk, IfErr, Err};
ghost use Rattle.amqp_data.specs.Data.{scalar, binary, list, dict, array, described as described_of, depth, AreOfKind, HasDistinctKeys};
ghost use Rattle.amqp_data.specs.View.{view, items_view, pairs_view};
ghost use Rattle.amqp_value.specs.Code.{limit, list_number, map_number, array_number};
ghost use Rattle.amqp_value.specs.Grammar.{Spells};
ghost use Rattle.amqp_value.specs.Canonical.{canonical, elements, IsSized, AreSized};
ghost use Rattle.amqp_value.specs.Writing.{octet_count, head, AreBehind, AreLength, ArePairsLength, AreElementsLength, IsWritable, AreWritable, IsListWritable, ArePairsWritable, Wrote, Writes, WroteAll, WrotePairs, Leaves, IsOfWriting};

use crate::code::{ScalarCode, SizeWidth};
use crate::elements::{element_code, elements_size, put_elements};
use crate::error::ValueError;
use crate::octets::put_octets;
use crate::scalars::{
    put_binary, put_bool, put_byte, put_character, put_identifier, put_int, put_long, put_null,
    put_short, put_string, put_symbol, put_timestamp, put_ubyte, put_uint, put_ulong, put_ushort,
};
use crate::size::{MAX_DEPTH, block_size, items_size, pairs_size, serialized_size};
use crate::width::compound_width;
use amqp_data::{
    Binary, Described, ElementKind, Entry, OrderedMap, Value, entries_nest_within,
    values_nest_within,
};
use std::alloc::{AllocError, Global};

fn list_byte(width: SizeWidth) -> u8
    ensures { result ≡ list_number width }
{
    match width {
        SizeWidth::One => 0xc0,
        SizeWidth::Four => 0xd0,
    }
}

fn map_byte(width: SizeWidth) -> u8
    ensures { result ≡ map_number width }
{
    match width {
        SizeWidth::One => 0xc1,
        SizeWidth::Four => 0xd1,
    }
}

fn array_byte(width: SizeWidth) -> u8
    ensures { result ≡ array_number width }
{
    match width {
        SizeWidth::One => 0xe0,
        SizeWidth::Four => 0xf0,
    }
}

/// Adds a constructor, the size of a count and the items, and the count.
fn put_head(
    out: &mut Binary,
    byte: u8,
    width: SizeWidth,
    count: u64,
    items: u64,
) -> Result<(), AllocError>
    requires counted { count < limit width }
    requires sized { items + octet_count width < limit width }
    ensures { OnOk result (out.new ≡ out.old ++ head byte width count items) }
{
    out.push(byte)?;
    put_octets(out, width, items + width.octets())?;
    put_octets(out, width, count)?;
    Ok(())
}

/// The length of values one after another, where it has room.
fn items_length(values: &[Value]) -> u64
    requires { IsListWritable (items_view values.now) }
    ensures { AreLength result (items_view values.now) }
{
    match items_size(values) {
        Some(size) => size,
        None => unreachable!(),
    }
}

/// The length of keys and values in turn, where it has room.
fn pairs_length(entries: &[Entry]) -> u64
    requires { IsWritable (dict (pairs_view entries.now)) }
    ensures { ArePairsLength result (pairs_view entries.now) }
{
    match pairs_size(entries) {
        Some(size) => size,
        None => unreachable!(),
    }
}

/// The length of an array's constructor and elements, where it has room.
fn elements_length(code: ScalarCode, values: &[Value]) -> u64
    requires behind { AreBehind code (items_view values.now) }
    requires sized { AreSized (items_view values.now) }
    requires short { 4 + suc (length (elements code (items_view values.now))) < 2 ^ 32 }
    ensures { AreElementsLength code result (items_view values.now) }
{
    match elements_size(code, values) {
        Some(size) => size,
        None => unreachable!(),
    }
}

fn put_array(out: &mut Binary, kind: ElementKind, values: &[Value]) -> Result<(), AllocError>
    requires kinds { AreOfKind kind (items_view values.now) }
    requires writable { IsWritable (array kind (items_view values.now)) }
    ensures { OnOk result (Wrote out.old out.new (array kind (items_view values.now))) }
{
    let code = element_code(kind, values);
    let size = elements_length(code, values);
    let count = values.len() as u64;
    let width = compound_width(count, size);
    put_head(out, array_byte(width), width, count, size)?;
    out.push(code.byte())?;
    put_elements(out, code, values)?;
    Ok(())
}

#[cycle(write)]
fn put_value(out: &mut Binary, value: &Value) -> Result<(), AllocError>
    requires { IsWritable (view value.now) }
    ensures { OnOk result (Wrote out.old out.new (view value.now)) }
{
    match value {
        Value::Null => put_null(out),
        Value::Bool(b) => put_bool(out, *b),
        Value::Ubyte(n) => put_ubyte(out, *n),
        Value::Ushort(n) => put_ushort(out, *n),
        Value::Uint(n) => put_uint(out, *n),
        Value::Ulong(n) => put_ulong(out, *n),
        Value::Byte(n) => put_byte(out, *n),
        Value::Short(n) => put_short(out, *n),
        Value::Int(n) => put_int(out, *n),
        Value::Long(n) => put_long(out, *n),
        Value::Char(c) => put_character(out, *c),
        Value::Timestamp(time) => put_timestamp(out, time.milliseconds),
        Value::Uuid(identifier) => put_identifier(out, identifier),
        Value::Binary(bytes) => put_binary(out, bytes.as_slice()),
        Value::String(text) => put_string(out, text.as_str()),
        Value::Symbol(symbol) => put_symbol(out, symbol.as_slice()),
        Value::List(list) => put_list(out, list.as_slice()),
        Value::Map(map) => {
            let entries = map.entries();
            put_map(out, entries, pairs_length(entries))
        }
        Value::Array(array) => put_array(out, array.kind(), array.as_slice()),
        Value::Described(described) => put_described(out, described),
    }
}

#[cycle(write)]
fn put_described(out: &mut Binary, described: &Described) -> Result<(), AllocError>
    requires { IsWritable (described_of described.now.0 described.now.1) }
    ensures { OnOk result (Wrote out.old out.new (described_of described.now.0 described.now.1)) }
{
    out.push(0)?;
    put_value(out, described.descriptor())?;
    put_value(out, described.value())?;
    Ok(())
}

#[cycle(write)]
fn put_list(out: &mut Binary, values: &[Value]) -> Result<(), AllocError>
    requires { IsListWritable (items_view values.now) }
    ensures { OnOk result (Wrote out.old out.new (list (items_view values.now))) }
{
    if values.is_empty() {
        out.push(0x45)?;
        return Ok(());
    }
    let size = items_length(values);
    let count = values.len() as u64;
    let width = compound_width(count, size);
    put_head(out, list_byte(width), width, count, size)?;
    put_items(out, values)?;
    Ok(())
}

#[cycle(write)]
fn put_items(out: &mut Binary, values: &[Value]) -> Result<(), AllocError>
    requires { AreWritable (items_view values.now) }
    ensures { OnOk result (WroteAll out.old out.new (items_view values.now)) }
{
    for value in values {
        put_value(out, value)?;
    }
    Ok(())
}

/// Adds the map whose keys and values have that length together.
#[cycle(write)]
fn put_map(out: &mut Binary, entries: &[Entry], size: u64) -> Result<(), AllocError>
    requires distinct { HasDistinctKeys (pairs_view entries.now) }
    requires writable { IsWritable (dict (pairs_view entries.now)) }
    requires sized { ArePairsLength size (pairs_view entries.now) }
    ensures { OnOk result (Wrote out.old out.new (dict (pairs_view entries.now))) }
{
    let count = 2 * entries.len() as u64;
    let width = compound_width(count, size);
    put_head(out, map_byte(width), width, count, size)?;
    put_pairs(out, entries)?;
    Ok(())
}

#[cycle(write)]
fn put_pairs(out: &mut Binary, entries: &[Entry]) -> Result<(), AllocError>
    requires { ArePairsWritable (pairs_view entries.now) }
    ensures { OnOk result (WrotePairs out.old out.new (pairs_view entries.now)) }
{
    for entry in entries {
        put_value(out, &entry.key)?;
        put_value(out, &entry.value)?;
    }
    Ok(())
}

/// Adds the one spelling of the value at the end: `Depth` exactly where it is nested more than 32 deep,
/// else `Size` exactly where a length needs more than 32 bits. Want of memory may leave a part of the spelling.
pub fn write_value(out: &mut Binary, value: &Value) -> Result<(), ValueError>
    ensures ok { OnOk result (out.new ≡ out.old ++ canonical (view value.now)) }
    ensures spelled { OnOk result (Spells (canonical (view value.now)) (view value.now)) }
    ensures nests { OnOk result (depth (view value.now) ≤ 32) }
    ensures sized { OnOk result (IsSized (view value.now)) }
    ensures too_deep { 32 < depth (view value.now) → result ≡ Err ValueError.Depth }
    ensures deep { result ≡ Err ValueError.Depth → 32 < depth (view value.now) }
    ensures too_long { depth (view value.now) ≤ 32 → (IsSized (view value.now) → ⊥) → result ≡ Err ValueError.Size }
    ensures size { result ≡ Err ValueError.Size → IsSized (view value.now) → ⊥ }
    ensures leaves { IfErr result (λ e. Leaves e out.old out.new) }
{
    serialized_size(value)?;
    put_value(out, value)?;
    Ok(())
}

/// Adds the one spelling of the list of those values: `Depth` exactly where one is nested deeper than so many levels,
/// else `Size` exactly where a length needs more than 32 bits.
fn write_items(out: &mut Binary, values: &[Value], levels: u8) -> Result<(), ValueError>
    requires { levels ≤ 32 }
    ensures { Writes result out.old out.new (list (items_view values.now)) (levels + 1) }
{
    if !values_nest_within(values, levels) {
        return Err(ValueError::Depth);
    }
    let Some(_) = items_size(values) else {
        return Err(ValueError::Size);
    };
    put_list(out, values)?;
    Ok(())
}

/// Adds the one spelling of the fields of a described list, each counted by itself: `Depth` exactly where one is nested more
/// than 32 deep, else `Size` exactly where a length needs more than 32 bits.
pub fn write_fields(out: &mut Binary, fields: &[Value]) -> Result<(), ValueError>
    ensures { Writes result out.old out.new (list (items_view fields.now)) 33 }
{
    write_items(out, fields, MAX_DEPTH)
}

/// Adds the one spelling of the list of those values: `Depth` exactly where it is nested more than 32 deep, else `Size`
/// exactly where a length needs more than 32 bits.
pub fn write_list(out: &mut Binary, values: &[Value]) -> Result<(), ValueError>
    ensures { Writes result out.old out.new (list (items_view values.now)) 32 }
{
    write_items(out, values, MAX_DEPTH - 1)
}

/// Adds the one spelling of the map: `Depth` exactly where it is nested more than 32 deep, else `Size` exactly where a length
/// needs more than 32 bits.
pub fn write_map(out: &mut Binary, map: &OrderedMap) -> Result<(), ValueError>
    ensures { Writes result out.old out.new (dict map.now) 32 }
{
    let entries = map.entries();
    if !entries_nest_within(entries, MAX_DEPTH - 1) {
        return Err(ValueError::Depth);
    }
    let Some(size) = pairs_size(entries) else {
        return Err(ValueError::Size);
    };
    put_map(out, entries, size)?;
    Ok(())
}

/// Adds the one spelling of the binary: `Size` exactly where its length needs more than 32 bits.
pub fn write_binary(out: &mut Binary, bytes: &[u8]) -> Result<(), ValueError>
    ensures { Writes result out.old out.new (scalar (binary bytes.now)) 32 }
{
    let Some(_) = block_size(bytes) else {
        return Err(ValueError::Size);
    };
    put_binary(out, bytes)?;
    Ok(())
}

/// The one spelling of the value: `Depth` exactly where it is nested more than 32 deep,
/// else `Size` exactly where a length needs more than 32 bits.
pub fn to_vec(alloc: Global, value: &Value) -> Result<Binary, ValueError>
    ensures ok { IfOk result (λ v. v ≡ canonical (view value.now)) }
    ensures spelled { IfOk result (λ v. Spells v (view value.now)) }
    ensures nests { OnOk result (depth (view value.now) ≤ 32) }
    ensures sized { OnOk result (IsSized (view value.now)) }
    ensures too_deep { 32 < depth (view value.now) → result ≡ Err ValueError.Depth }
    ensures deep { result ≡ Err ValueError.Depth → 32 < depth (view value.now) }
    ensures too_long { depth (view value.now) ≤ 32 → (IsSized (view value.now) → ⊥) → result ≡ Err ValueError.Size }
    ensures size { result ≡ Err ValueError.Size → IsSized (view value.now) → ⊥ }
    ensures refused { IfErr result IsOfWriting }
{
    let mut out = Binary::new(alloc);
    write_value(&mut out, value)?;
    Ok(out)
}
