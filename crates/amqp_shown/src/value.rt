//! Values and the fields of described lists (OASIS AMQP 1.0, part 1, sections 1.4 and 1.6).
ghost use Rattle.std.specs.Prelude.{◌≡◌, ◌++◌, OnOk, decimal};
ghost use Rattle.std.specs.Fmt.{signed_decimal};
ghost use Rattle.amqp_data.specs.Data.{char, described as described_of};
ghost use Rattle.amqp_data.specs.View.{view, items_view, pairs_view};
ghost use Rattle.amqp_composites.specs.Described.{kind_in};
ghost use Rattle.amqp_shown.specs.Names.{names_of};
ghost use Rattle.amqp_shown.specs.Values.{scalar_text, own_text, labelled, value_text, content_text, list_text, dict_text, fields_text};

use crate::bytes::{push_escaped, push_hex, push_quoted, push_separator, push_uuid, push_word};
use crate::names::{field_name, name};
use amqp_composites::kind::CompositeKind;
use amqp_data::{Described, Entry, Value};
use std::alloc::{AllocError, Global};

/// Adds a number in decimal.
pub fn push_number(alloc: Global, out: &mut Vec<u8>, number: u64) -> Result<(), AllocError>
    ensures { OnOk result (out.new.items ≡ out.old.items ++ decimal number) }
{
    let text = format!(in alloc; "{number}")?;
    out.extend_from_slice(text.as_bytes())?;
    Ok(())
}

fn push_signed(alloc: Global, out: &mut Vec<u8>, number: i64) -> Result<(), AllocError>
    ensures { OnOk result (out.new.items ≡ out.old.items ++ signed_decimal number) }
{
    let text = format!(in alloc; "{number}")?;
    out.extend_from_slice(text.as_bytes())?;
    Ok(())
}

fn push_character(alloc: Global, out: &mut Vec<u8>, character: char) -> Result<(), AllocError>
    ensures { OnOk result (out.new.items ≡ out.old.items ++ scalar_text (char character)) }
{
    push_word(out, "char ")?;
    push_number(alloc, out, u64::from(u32::from(character)))
}

fn kind_of(descriptor: &Value) -> Option<CompositeKind>
    ensures { result ≡ kind_in (view descriptor.now) }
{
    match descriptor {
        Value::Ulong(number) => CompositeKind::with_number(*number),
        Value::Symbol(name) => CompositeKind::with_name(name.as_slice()),
        _ => None,
    }
}

/// Adds a value that holds no other, or nothing where it holds some.
fn push_scalar(alloc: Global, out: &mut Vec<u8>, value: &Value) -> Result<(), AllocError>
    ensures { OnOk result (out.new.items ≡ out.old.items ++ own_text (view value.now)) }
{
    match value {
        Value::Null => push_word(out, "null"),
        Value::Bool(true) => push_word(out, "true"),
        Value::Bool(false) => push_word(out, "false"),
        Value::Ubyte(number) => push_number(alloc, out, u64::from(*number)),
        Value::Ushort(number) => push_number(alloc, out, u64::from(*number)),
        Value::Uint(number) => push_number(alloc, out, u64::from(*number)),
        Value::Ulong(number) => push_number(alloc, out, *number),
        Value::Byte(number) => push_signed(alloc, out, i64::from(*number)),
        Value::Short(number) => push_signed(alloc, out, i64::from(*number)),
        Value::Int(number) => push_signed(alloc, out, i64::from(*number)),
        Value::Long(number) => push_signed(alloc, out, *number),
        Value::Char(character) => push_character(alloc, out, *character),
        Value::Timestamp(time) => {
            push_signed(alloc, out, time.milliseconds)?;
            push_word(out, " ms")
        }
        Value::Uuid(uuid) => push_uuid(out, uuid.bytes.as_slice()),
        Value::Binary(bytes) => {
            push_word(out, "0x")?;
            push_hex(out, bytes.as_slice())
        }
        Value::String(text) => push_quoted(out, true, text.as_bytes()),
        Value::Symbol(symbol) => {
            out.push(b':')?;
            push_escaped(out, false, symbol.as_slice())
        }
        Value::List(_) | Value::Map(_) | Value::Array(_) | Value::Described(_) => Ok(()),
    }
}

/// Adds the text of a value; the one error is want of memory, which may leave a part of the text.
#[cycle(show)]
pub fn push_value(alloc: Global, out: &mut Vec<u8>, value: &Value) -> Result<(), AllocError>
    ensures { OnOk result (out.new.items ≡ out.old.items ++ value_text (view value.now)) }
{
    match value {
        Value::List(list) => push_items(alloc, out, list.as_slice()),
        Value::Array(array) => push_items(alloc, out, array.as_slice()),
        Value::Map(map) => push_pairs(alloc, out, map.entries()),
        Value::Described(described) => push_described(alloc, out, described),
        _ => push_scalar(alloc, out, value),
    }
}

/// Adds values in brackets.
#[cycle(show)]
pub fn push_items(alloc: Global, out: &mut Vec<u8>, values: &[Value]) -> Result<(), AllocError>
    ensures { OnOk result (out.new.items ≡ out.old.items ++ list_text (items_view values.now)) }
{
    out.push(b'[')?;
    for (place, value) in values.iter().enumerate() {
        push_separator(out, place)?;
        push_value(alloc, out, value)?;
    }
    out.push(b']')?;
    Ok(())
}

/// Adds the entries of a map in braces.
#[cycle(show)]
pub fn push_pairs(alloc: Global, out: &mut Vec<u8>, entries: &[Entry]) -> Result<(), AllocError>
    ensures { OnOk result (out.new.items ≡ out.old.items ++ dict_text (pairs_view entries.now)) }
{
    out.push(b'{')?;
    for (place, entry) in entries.iter().enumerate() {
        push_separator(out, place)?;
        push_value(alloc, out, &entry.key)?;
        push_word(out, ": ")?;
        push_value(alloc, out, &entry.value)?;
    }
    out.push(b'}')?;
    Ok(())
}

#[cycle(show)]
fn push_described(alloc: Global, out: &mut Vec<u8>, described: &Described) -> Result<(), AllocError>
    ensures { let said = value_text (described_of described.now.0 described.now.1) in
        OnOk result (out.new.items ≡ out.old.items ++ said) }
{
    out.push(b'(')?;
    let kind = kind_of(described.descriptor());
    match kind {
        Some(kind) => push_word(out, name(kind))?,
        None => {
            out.push(b'@')?;
            push_value(alloc, out, described.descriptor())?;
        }
    }
    push_content(alloc, out, kind, described.value())?;
    out.push(b')')?;
    Ok(())
}

#[cycle(show)]
fn push_content(
    alloc: Global,
    out: &mut Vec<u8>,
    kind: Option<CompositeKind>,
    value: &Value,
) -> Result<(), AllocError>
    ensures { OnOk result (out.new.items ≡ out.old.items ++ content_text (view value.now) kind) }
{
    if let Some(kind) = kind
        && let Value::List(list) = value
    {
        return push_fields(alloc, out, kind, list.as_slice());
    }
    out.push(b' ')?;
    push_value(alloc, out, value)
}

/// Adds ` NAME=VALUE` for each field of such a list that is not null, in their order.
#[cycle(show)]
pub fn push_fields(
    alloc: Global,
    out: &mut Vec<u8>,
    kind: CompositeKind,
    values: &[Value],
) -> Result<(), AllocError>
    ensures { OnOk result (out.new.items ≡ out.old.items ++ fields_text (names_of kind) 0 (items_view values.now)) }
{
    for (place, value) in values.iter().enumerate() {
        push_field(alloc, out, field_name(kind, place), value)?;
    }
    Ok(())
}

/// Adds ` NAME=VALUE`, where the value is not null.
#[cycle(show)]
fn push_field(alloc: Global, out: &mut Vec<u8>, name: &str, value: &Value) -> Result<(), AllocError>
    ensures { let said = labelled name.now (view value.now) (value_text (view value.now)) in
        OnOk result (out.new.items ≡ out.old.items ++ said) }
{
    if let Value::Null = value {
        return Ok(());
    }
    out.push(b' ')?;
    push_word(out, name)?;
    out.push(b'=')?;
    push_value(alloc, out, value)
}
