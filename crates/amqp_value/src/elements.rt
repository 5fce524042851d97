//! The elements of an array: one constructor, and the elements without theirs
//! (OASIS AMQP 1.0, part 1, sections 1.2.4 and 1.6.24).
ghost use Rattle.std.specs.Prelude.{◌≡◌, ℕ, ◌<◌, ◌^◌, ◌++◌, ◌∷◌, [], length, OnOk, IsSome};
ghost use Rattle.amqp_data.specs.Data.{AreOfKind, element_kind};
ghost use Rattle.amqp_data.specs.View.{view, items_view};
ghost use Rattle.amqp_value.specs.Code.{limit, octets, block};
ghost use Rattle.amqp_value.specs.Canonical.{is_short, are_short, element_code, elements};
ghost use Rattle.amqp_value.specs.Writing.{code_of_kind, width_in, AreBehind, HasRoom, HaveRoom, MeasuresElement, MeasuresElements, PutsElement, WroteElements};

use crate::code::{ScalarCode, SizeWidth};
use crate::octets::{
    put_char, put_i8, put_i16, put_i32, put_i64, put_text, put_u8, put_u16, put_u32, put_u64,
    put_uuid,
};
use crate::size::{SIZE_LIMIT, text_size, uuid_size};
use amqp_data::{Binary, ElementKind, Value};
use std::alloc::AllocError;

fn is_short(value: &Value) -> bool
    ensures { result ≡ is_short (view value.now) }
{
    match value {
        Value::Binary(bytes) => bytes.len() < 256,
        Value::String(text) => text.len() < 256,
        Value::Symbol(symbol) => symbol.len() < 256,
        _ => true,
    }
}

fn are_short(values: &[Value]) -> bool
    ensures { result ≡ are_short (items_view values.now) }
{
    for value in values {
        if !is_short(value) {
            return false;
        }
    }
    true
}

fn code_of_kind(kind: ElementKind, width: SizeWidth) -> ScalarCode
    ensures { result ≡ code_of_kind kind width }
{
    match kind {
        ElementKind::Bool => ScalarCode::Boolean,
        ElementKind::Ubyte => ScalarCode::Ubyte,
        ElementKind::Ushort => ScalarCode::Ushort,
        ElementKind::Uint => ScalarCode::Uint,
        ElementKind::Ulong => ScalarCode::Ulong,
        ElementKind::Byte => ScalarCode::Byte,
        ElementKind::Short => ScalarCode::Short,
        ElementKind::Int => ScalarCode::Int,
        ElementKind::Long => ScalarCode::Long,
        ElementKind::Char => ScalarCode::Char,
        ElementKind::Timestamp => ScalarCode::Timestamp,
        ElementKind::Uuid => ScalarCode::Uuid,
        ElementKind::Binary => ScalarCode::Binary(width),
        ElementKind::String => ScalarCode::String(width),
        ElementKind::Symbol => ScalarCode::Symbol(width),
    }
}

/// The constructor of the elements: one-byte lengths where all texts have room.
pub(crate) fn element_code(kind: ElementKind, values: &[Value]) -> ScalarCode
    ensures { result ≡ element_code kind (items_view values.now) }
{
    if are_short(values) {
        code_of_kind(kind, SizeWidth::One)
    } else {
        code_of_kind(kind, SizeWidth::Four)
    }
}

/// The length of an element, unless its own length has no room.
#[tactic(auto, unfolding(crate::specs::Canonical::laid))]
fn element_size(width: SizeWidth, value: &Value) -> Option<u64>
    requires { IsSome (element_kind (view value.now)) }
    ensures { MeasuresElement width result (view value.now) }
{
    match value {
        Value::Bool(_) | Value::Ubyte(_) | Value::Byte(_) => Some(1),
        Value::Ushort(_) | Value::Short(_) => Some(2),
        Value::Uint(_) | Value::Int(_) | Value::Char(_) => Some(4),
        Value::Ulong(_) | Value::Long(_) | Value::Timestamp(_) => Some(8),
        Value::Uuid(uuid) => Some(uuid_size(uuid)),
        Value::Binary(bytes) => text_size(width, bytes.as_slice()),
        Value::String(text) => text_size(width, text.as_str().as_bytes()),
        Value::Symbol(symbol) => text_size(width, symbol.as_slice()),
        Value::Null | Value::List(_) | Value::Map(_) | Value::Array(_) | Value::Described(_) =>
            None,
    }
}

/// The length of the constructor and the elements, unless a length has no room.
pub(crate) fn elements_size(code: ScalarCode, values: &[Value]) -> Option<u64>
    requires { AreBehind code (items_view values.now) }
    ensures { MeasuresElements code result (items_view values.now) }
{
    let mut total: u64 = 1;
    for value in values {
        let size = element_size(code.width(), value)?;
        if size >= SIZE_LIMIT - 4 - total {
            return None;
        }
        total += size;
    }
    Some(total)
}

#[tactic(auto, unfolding(crate::specs::Canonical::laid))]
fn put_element(out: &mut Binary, width: SizeWidth, value: &Value) -> Result<(), AllocError>
    requires { HasRoom width (view value.now) }
    ensures { OnOk result (PutsElement width out.old out.new (view value.now)) }
{
    match value {
        Value::Bool(b) => put_u8(out, u8::from(*b)),
        Value::Ubyte(n) => put_u8(out, *n),
        Value::Ushort(n) => put_u16(out, *n),
        Value::Uint(n) => put_u32(out, *n),
        Value::Ulong(n) => put_u64(out, *n),
        Value::Byte(n) => put_i8(out, *n),
        Value::Short(n) => put_i16(out, *n),
        Value::Int(n) => put_i32(out, *n),
        Value::Long(n) => put_i64(out, *n),
        Value::Char(c) => put_char(out, *c),
        Value::Timestamp(timestamp) => put_i64(out, timestamp.milliseconds),
        Value::Uuid(uuid) => put_uuid(out, uuid),
        Value::Binary(bytes) => put_text(out, width, bytes.as_slice()),
        Value::String(text) => put_text(out, width, text.as_str().as_bytes()),
        Value::Symbol(symbol) => put_text(out, width, symbol.as_slice()),
        Value::Null | Value::List(_) | Value::Map(_) | Value::Array(_) | Value::Described(_) => Ok(
            (),
        ),
    }
}

/// Adds the elements, without their constructor.
pub(crate) fn put_elements(
    out: &mut Binary,
    code: ScalarCode,
    values: &[Value],
) -> Result<(), AllocError>
    requires behind { AreBehind code (items_view values.now) }
    requires room { HaveRoom (width_in code) (items_view values.now) }
    ensures { OnOk result (WroteElements code out.old out.new (items_view values.now)) }
{
    for value in values {
        put_element(out, code.width(), value)?;
    }
    Ok(())
}
