//! Scalars behind the first constructor that can hold them (OASIS AMQP 1.0, part 1, section 1.6).
ghost use Rattle.std.specs.Prelude.{◌≡◌, ℕ, ◌<◌, ◌^◌, ◌++◌, ◌∷◌, [], length, OnOk, IsUtf8};
ghost use Rattle.amqp_data.specs.Data.{null, boolean, ubyte, ushort, uint, ulong, byte, short, int, long, char, timestamp, uuid, binary, string, symbol};
ghost use Rattle.amqp_value.specs.Grammar.{IsAscii};
ghost use Rattle.amqp_value.specs.Canonical.{shortest, laid, canonical_scalar};
ghost use Rattle.amqp_value.specs.Writing.{Puts};

use crate::code::ScalarCode;
use crate::octets::{
    put_char, put_i8, put_i16, put_i32, put_i64, put_text, put_u8, put_u16, put_u32, put_u64,
    put_uuid,
};
use crate::width::text_width;
use amqp_data::{Binary, Uuid};
use std::alloc::AllocError;

#[tactic(auto, unfolding(crate::specs::Canonical::canonical_scalar, crate::specs::Canonical::laid))]
pub(crate) fn put_null(out: &mut Binary) -> Result<(), AllocError>
    ensures { OnOk result (Puts out.old out.new null) }
{
    out.push(0x40)
}

#[tactic(auto, unfolding(crate::specs::Canonical::canonical_scalar, crate::specs::Canonical::laid))]
pub(crate) fn put_bool(out: &mut Binary, b: bool) -> Result<(), AllocError>
    ensures { OnOk result (Puts out.old out.new (boolean b)) }
{
    if b { out.push(0x41) } else { out.push(0x42) }
}

#[tactic(auto, unfolding(crate::specs::Canonical::canonical_scalar, crate::specs::Canonical::laid))]
pub(crate) fn put_ubyte(out: &mut Binary, n: u8) -> Result<(), AllocError>
    ensures { OnOk result (Puts out.old out.new (ubyte n)) }
{
    out.push(0x50)?;
    put_u8(out, n)
}

#[tactic(auto, unfolding(crate::specs::Canonical::canonical_scalar, crate::specs::Canonical::laid))]
pub(crate) fn put_ushort(out: &mut Binary, n: u16) -> Result<(), AllocError>
    ensures { OnOk result (Puts out.old out.new (ushort n)) }
{
    out.push(0x60)?;
    put_u16(out, n)
}

#[tactic(auto, unfolding(crate::specs::Canonical::canonical_scalar, crate::specs::Canonical::laid))]
pub(crate) fn put_uint(out: &mut Binary, n: u32) -> Result<(), AllocError>
    ensures { OnOk result (Puts out.old out.new (uint n)) }
{
    if n == 0 {
        return out.push(0x43);
    }
    if n < 256 {
        out.push(0x52)?;
        return out.push(n as u8);
    }
    out.push(0x70)?;
    put_u32(out, n)
}

#[tactic(auto, unfolding(crate::specs::Canonical::canonical_scalar, crate::specs::Canonical::laid))]
pub(crate) fn put_ulong(out: &mut Binary, n: u64) -> Result<(), AllocError>
    ensures { OnOk result (Puts out.old out.new (ulong n)) }
{
    if n == 0 {
        return out.push(0x44);
    }
    if n < 256 {
        out.push(0x53)?;
        return out.push(n as u8);
    }
    out.push(0x80)?;
    put_u64(out, n)
}

#[tactic(auto, unfolding(crate::specs::Canonical::canonical_scalar, crate::specs::Canonical::laid))]
pub(crate) fn put_byte(out: &mut Binary, n: i8) -> Result<(), AllocError>
    ensures { OnOk result (Puts out.old out.new (byte n)) }
{
    out.push(0x51)?;
    put_i8(out, n)
}

#[tactic(auto, unfolding(crate::specs::Canonical::canonical_scalar, crate::specs::Canonical::laid))]
pub(crate) fn put_short(out: &mut Binary, n: i16) -> Result<(), AllocError>
    ensures { OnOk result (Puts out.old out.new (short n)) }
{
    out.push(0x61)?;
    put_i16(out, n)
}

#[tactic(auto, unfolding(crate::specs::Canonical::canonical_scalar, crate::specs::Canonical::laid))]
pub(crate) fn put_int(out: &mut Binary, n: i32) -> Result<(), AllocError>
    ensures { OnOk result (Puts out.old out.new (int n)) }
{
    if n >= -128 && n <= 127 {
        out.push(0x54)?;
        return out.push((n as i8).cast_unsigned());
    }
    out.push(0x71)?;
    put_i32(out, n)
}

#[tactic(auto, unfolding(crate::specs::Canonical::canonical_scalar, crate::specs::Canonical::laid))]
pub(crate) fn put_long(out: &mut Binary, n: i64) -> Result<(), AllocError>
    ensures { OnOk result (Puts out.old out.new (long n)) }
{
    if n >= -128 && n <= 127 {
        out.push(0x55)?;
        return out.push((n as i8).cast_unsigned());
    }
    out.push(0x81)?;
    put_i64(out, n)
}

#[tactic(auto, unfolding(crate::specs::Canonical::canonical_scalar, crate::specs::Canonical::laid))]
pub(crate) fn put_character(out: &mut Binary, c: char) -> Result<(), AllocError>
    ensures { OnOk result (Puts out.old out.new (char c)) }
{
    out.push(0x73)?;
    put_char(out, c)
}

#[tactic(auto, unfolding(crate::specs::Canonical::canonical_scalar, crate::specs::Canonical::laid))]
pub(crate) fn put_timestamp(out: &mut Binary, milliseconds: i64) -> Result<(), AllocError>
    ensures { OnOk result (Puts out.old out.new (timestamp milliseconds)) }
{
    out.push(0x83)?;
    put_i64(out, milliseconds)?;
    Ok(())
}

#[tactic(auto, unfolding(crate::specs::Canonical::canonical_scalar, crate::specs::Canonical::laid))]
pub(crate) fn put_identifier(out: &mut Binary, identifier: &Uuid) -> Result<(), AllocError>
    ensures { OnOk result (Puts out.old out.new (uuid identifier.now.bytes)) }
{
    out.push(0x98)?;
    put_uuid(out, identifier)
}

#[tactic(auto, unfolding(crate::specs::Canonical::canonical_scalar, crate::specs::Canonical::laid))]
pub(crate) fn put_binary(out: &mut Binary, bytes: &[u8]) -> Result<(), AllocError>
    requires { length bytes.now < 2 ^ 32 }
    ensures { OnOk result (Puts out.old out.new (binary bytes.now)) }
{
    let width = text_width(bytes);
    out.push(ScalarCode::Binary(width).byte())?;
    put_text(out, width, bytes)
}

#[tactic(auto, unfolding(crate::specs::Canonical::canonical_scalar, crate::specs::Canonical::laid))]
pub(crate) fn put_string(out: &mut Binary, text: &str) -> Result<(), AllocError>
    requires { length text.now < 2 ^ 32 }
    ensures { OnOk result (Puts out.old out.new (string text.now)) }
{
    let bytes = text.as_bytes();
    let width = text_width(bytes);
    out.push(ScalarCode::String(width).byte())?;
    put_text(out, width, bytes)
}

#[tactic(auto, unfolding(crate::specs::Canonical::canonical_scalar, crate::specs::Canonical::laid))]
pub(crate) fn put_symbol(out: &mut Binary, bytes: &[u8]) -> Result<(), AllocError>
    requires room { length bytes.now < 2 ^ 32 }
    requires ascii { IsAscii bytes.now }
    ensures { OnOk result (Puts out.old out.new (symbol bytes.now)) }
{
    let width = text_width(bytes);
    out.push(ScalarCode::Symbol(width).byte())?;
    put_text(out, width, bytes)
}
