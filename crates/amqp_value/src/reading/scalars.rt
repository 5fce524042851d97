//! Values that hold no other value, behind their constructor (OASIS AMQP 1.0, part 1, sections 1.6.1 to 1.6.21).
ghost use Rattle.std.specs.Prelude.{Option, ℕ, List};
ghost use Rattle.std.specs.Int.{w8, w16, w32, w64, cast_signed};
ghost use Rattle.amqp_data.specs.Data.{scalar, boolean, ubyte, ushort, uint, ulong, byte, short, int, long, char, timestamp, uuid, binary, string, symbol};
ghost use Rattle.amqp_data.specs.View.{view};
ghost use Rattle.amqp_value.specs.Reading.{Gives, byte_at, number_at, bytes_at, block_at, text_at, symbol_at, truth, character, kept, tested, scalar_at};

use crate::code::{ScalarCode, SizeWidth};
use crate::error::ValueError;
use crate::reading::blocks::{take_block, take_bytes, take_u8, take_u16, take_u32, take_u64};
use amqp_data::{Binary, Symbol, Text, Timestamp, Uuid, Value};
use std::alloc::Global;

fn read_boolean(bytes: &[u8]) -> Result<(Value, &[u8]), ValueError>
    ensures { Gives (λ x. (view x.0, x.1.now)) result (kept scalar (kept boolean (tested truth (byte_at bytes.now)))) }
{
    let (number, rest) = take_u8(bytes)?;
    match number {
        0 => Ok((Value::Bool(false), rest)),
        1 => Ok((Value::Bool(true), rest)),
        _ => Err(ValueError::Decode),
    }
}

fn read_ubyte(bytes: &[u8]) -> Result<(Value, &[u8]), ValueError>
    ensures { Gives (λ x. (view x.0, x.1.now)) result (kept scalar (kept ubyte (byte_at bytes.now))) }
{
    let (number, rest) = take_u8(bytes)?;
    Ok((Value::Ubyte(number), rest))
}

fn read_ushort(bytes: &[u8]) -> Result<(Value, &[u8]), ValueError>
    ensures { Gives (λ x. (view x.0, x.1.now)) result (kept scalar (kept ushort (number_at w16 bytes.now))) }
{
    let (number, rest) = take_u16(bytes)?;
    Ok((Value::Ushort(number), rest))
}

fn read_small_uint(bytes: &[u8]) -> Result<(Value, &[u8]), ValueError>
    ensures { Gives (λ x. (view x.0, x.1.now)) result (kept scalar (kept uint (byte_at bytes.now))) }
{
    let (number, rest) = take_u8(bytes)?;
    Ok((Value::Uint(u32::from(number)), rest))
}

fn read_uint(bytes: &[u8]) -> Result<(Value, &[u8]), ValueError>
    ensures { Gives (λ x. (view x.0, x.1.now)) result (kept scalar (kept uint (number_at w32 bytes.now))) }
{
    let (number, rest) = take_u32(bytes)?;
    Ok((Value::Uint(number), rest))
}

fn read_small_ulong(bytes: &[u8]) -> Result<(Value, &[u8]), ValueError>
    ensures { Gives (λ x. (view x.0, x.1.now)) result (kept scalar (kept ulong (byte_at bytes.now))) }
{
    let (number, rest) = take_u8(bytes)?;
    Ok((Value::Ulong(u64::from(number)), rest))
}

fn read_ulong(bytes: &[u8]) -> Result<(Value, &[u8]), ValueError>
    ensures { Gives (λ x. (view x.0, x.1.now)) result (kept scalar (kept ulong (number_at w64 bytes.now))) }
{
    let (number, rest) = take_u64(bytes)?;
    Ok((Value::Ulong(number), rest))
}

fn read_byte(bytes: &[u8]) -> Result<(Value, &[u8]), ValueError>
    ensures { Gives (λ x. (view x.0, x.1.now)) result (kept scalar (kept (λ n. byte (cast_signed w8 n)) (byte_at bytes.now))) }
{
    let (number, rest) = take_u8(bytes)?;
    Ok((Value::Byte(number.cast_signed()), rest))
}

fn read_short(bytes: &[u8]) -> Result<(Value, &[u8]), ValueError>
    ensures { Gives (λ x. (view x.0, x.1.now)) result (kept scalar (kept (λ n. short (cast_signed w16 n)) (number_at w16 bytes.now))) }
{
    let (number, rest) = take_u16(bytes)?;
    Ok((Value::Short(number.cast_signed()), rest))
}

fn read_small_int(bytes: &[u8]) -> Result<(Value, &[u8]), ValueError>
    ensures { Gives (λ x. (view x.0, x.1.now)) result (kept scalar (kept (λ n. int (cast_signed w8 n)) (byte_at bytes.now))) }
{
    let (number, rest) = take_u8(bytes)?;
    Ok((Value::Int(i32::from(number.cast_signed())), rest))
}

fn read_int(bytes: &[u8]) -> Result<(Value, &[u8]), ValueError>
    ensures { Gives (λ x. (view x.0, x.1.now)) result (kept scalar (kept (λ n. int (cast_signed w32 n)) (number_at w32 bytes.now))) }
{
    let (number, rest) = take_u32(bytes)?;
    Ok((Value::Int(number.cast_signed()), rest))
}

fn read_small_long(bytes: &[u8]) -> Result<(Value, &[u8]), ValueError>
    ensures { Gives (λ x. (view x.0, x.1.now)) result (kept scalar (kept (λ n. long (cast_signed w8 n)) (byte_at bytes.now))) }
{
    let (number, rest) = take_u8(bytes)?;
    Ok((Value::Long(i64::from(number.cast_signed())), rest))
}

fn read_long(bytes: &[u8]) -> Result<(Value, &[u8]), ValueError>
    ensures { Gives (λ x. (view x.0, x.1.now)) result (kept scalar (kept (λ n. long (cast_signed w64 n)) (number_at w64 bytes.now))) }
{
    let (number, rest) = take_u64(bytes)?;
    Ok((Value::Long(number.cast_signed()), rest))
}

fn read_char(bytes: &[u8]) -> Result<(Value, &[u8]), ValueError>
    ensures { Gives (λ x. (view x.0, x.1.now)) result (kept scalar (kept char (tested character (number_at w32 bytes.now)))) }
{
    let (number, rest) = take_u32(bytes)?;
    match char::from_u32(number) {
        Some(found) => Ok((Value::Char(found), rest)),
        None => Err(ValueError::Decode),
    }
}

fn read_timestamp(bytes: &[u8]) -> Result<(Value, &[u8]), ValueError>
    ensures { Gives (λ x. (view x.0, x.1.now)) result (kept scalar (kept (λ n. timestamp (cast_signed w64 n)) (number_at w64 bytes.now))) }
{
    let (number, rest) = take_u64(bytes)?;
    let milliseconds = number.cast_signed();
    Ok((Value::Timestamp(Timestamp { milliseconds }), rest))
}

fn read_uuid(bytes: &[u8]) -> Result<(Value, &[u8]), ValueError>
    ensures { Gives (λ x. (view x.0, x.1.now)) result (kept scalar (kept uuid (bytes_at 16 bytes.now))) }
{
    let (front, rest) = take_bytes(16, bytes)?;
    let mut bytes = [0; 16];
    bytes.copy_from_slice(front);
    Ok((Value::Uuid(Uuid { bytes }), rest))
}

fn read_binary(alloc: Global, width: SizeWidth, bytes: &[u8]) -> Result<(Value, &[u8]), ValueError>
    ensures { Gives (λ x. (view x.0, x.1.now)) result (kept scalar (kept binary (block_at width bytes.now))) }
{
    let (octets, rest) = take_block(width, bytes)?;
    let octets = Binary::from_slice(alloc, octets)?;
    Ok((Value::Binary(octets), rest))
}

#[tactic(auto, unfolding(crate::specs::Reading::text_at))]
#[inline(always)]
pub fn read_string(
    alloc: Global,
    width: SizeWidth,
    bytes: &[u8],
) -> Result<(Value, &[u8]), ValueError>
    ensures { Gives (λ x. (view x.0, x.1.now)) result (kept scalar (kept string (text_at width bytes.now))) }
{
    let (octets, rest) = take_block(width, bytes)?;
    let text = Text::from_utf8(alloc, octets)?;
    Ok((Value::String(text), rest))
}

#[tactic(auto, unfolding(crate::specs::Reading::symbol_at))]
fn read_symbol(alloc: Global, width: SizeWidth, bytes: &[u8]) -> Result<(Value, &[u8]), ValueError>
    ensures { Gives (λ x. (view x.0, x.1.now)) result (kept scalar (kept symbol (symbol_at width bytes.now))) }
{
    let (octets, rest) = take_block(width, bytes)?;
    let symbol = Symbol::from_slice(alloc, octets)?;
    Ok((Value::Symbol(symbol), rest))
}

/// The value behind that constructor, and the bytes after it.
#[tactic(auto, unfolding(crate::specs::Reading::scalar_at))]
pub fn read_scalar(
    alloc: Global,
    code: ScalarCode,
    bytes: &[u8],
) -> Result<(Value, &[u8]), ValueError>
    ensures { Gives (λ x. (view x.0, x.1.now)) result (kept scalar (scalar_at code bytes.now)) }
{
    match code {
        ScalarCode::Null => Ok((Value::Null, bytes)),
        ScalarCode::True => Ok((Value::Bool(true), bytes)),
        ScalarCode::False => Ok((Value::Bool(false), bytes)),
        ScalarCode::Boolean => read_boolean(bytes),
        ScalarCode::Ubyte => read_ubyte(bytes),
        ScalarCode::Ushort => read_ushort(bytes),
        ScalarCode::Uint0 => Ok((Value::Uint(0), bytes)),
        ScalarCode::SmallUint => read_small_uint(bytes),
        ScalarCode::Uint => read_uint(bytes),
        ScalarCode::Ulong0 => Ok((Value::Ulong(0), bytes)),
        ScalarCode::SmallUlong => read_small_ulong(bytes),
        ScalarCode::Ulong => read_ulong(bytes),
        ScalarCode::Byte => read_byte(bytes),
        ScalarCode::Short => read_short(bytes),
        ScalarCode::SmallInt => read_small_int(bytes),
        ScalarCode::Int => read_int(bytes),
        ScalarCode::SmallLong => read_small_long(bytes),
        ScalarCode::Long => read_long(bytes),
        ScalarCode::Char => read_char(bytes),
        ScalarCode::Timestamp => read_timestamp(bytes),
        ScalarCode::Uuid => read_uuid(bytes),
        ScalarCode::Binary(width) => read_binary(alloc, width, bytes),
        ScalarCode::String(width) => read_string(alloc, width, bytes),
        ScalarCode::Symbol(width) => read_symbol(alloc, width, bytes),
    }
}
