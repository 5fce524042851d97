//! Numbers and texts behind their constructor (OASIS AMQP 1.0, part 1, section 1.6).
ghost use Rattle.std.specs.Prelude.{◌≡◌, ℕ, ◌<◌, ◌^◌, ◌++◌, ◌∷◌, [], length, OnOk, FitsSigned};
ghost use Rattle.std.specs.Char.{IsScalar};
ghost use Rattle.std.specs.Int.{w8, w16, w32, w64, to_be_bytes, cast_unsigned};
ghost use Rattle.amqp_value.specs.Code.{limit, octets, block, content};

use crate::code::SizeWidth;
use amqp_data::{Binary, Uuid};
use std::alloc::AllocError;

pub(crate) fn put_u8(out: &mut Binary, n: u8) -> Result<(), AllocError>
    ensures { OnOk result ((out.new ≡ out.old ++ n ∷ []) × (n < 256)) }
{
    out.push(n)
}

pub(crate) fn put_u16(out: &mut Binary, n: u16) -> Result<(), AllocError>
    ensures { OnOk result ((out.new ≡ out.old ++ to_be_bytes w16 n) × (n < 2 ^ 16)) }
{
    out.append(&n.to_be_bytes())
}

pub(crate) fn put_u32(out: &mut Binary, n: u32) -> Result<(), AllocError>
    ensures { OnOk result ((out.new ≡ out.old ++ to_be_bytes w32 n) × (n < 2 ^ 32)) }
{
    out.append(&n.to_be_bytes())
}

pub(crate) fn put_u64(out: &mut Binary, n: u64) -> Result<(), AllocError>
    ensures { OnOk result ((out.new ≡ out.old ++ to_be_bytes w64 n) × (n < 2 ^ 64)) }
{
    out.append(&n.to_be_bytes())
}

pub(crate) fn put_i8(out: &mut Binary, n: i8) -> Result<(), AllocError>
    ensures { OnOk result ((out.new ≡ out.old ++ cast_unsigned w8 n ∷ []) × FitsSigned w8 n) }
{
    out.push(n.cast_unsigned())
}

pub(crate) fn put_i16(out: &mut Binary, n: i16) -> Result<(), AllocError>
    ensures { OnOk result ((out.new ≡ out.old ++ to_be_bytes w16 (cast_unsigned w16 n)) × FitsSigned w16 n) }
{
    out.append(&n.to_be_bytes())
}

pub(crate) fn put_i32(out: &mut Binary, n: i32) -> Result<(), AllocError>
    ensures { OnOk result ((out.new ≡ out.old ++ to_be_bytes w32 (cast_unsigned w32 n)) × FitsSigned w32 n) }
{
    out.append(&n.to_be_bytes())
}

pub(crate) fn put_i64(out: &mut Binary, n: i64) -> Result<(), AllocError>
    ensures { OnOk result ((out.new ≡ out.old ++ to_be_bytes w64 (cast_unsigned w64 n)) × FitsSigned w64 n) }
{
    out.append(&n.to_be_bytes())
}

pub(crate) fn put_char(out: &mut Binary, c: char) -> Result<(), AllocError>
    ensures { OnOk result ((out.new ≡ out.old ++ to_be_bytes w32 c) × IsScalar c) }
{
    out.append(&u32::from(c).to_be_bytes())
}

pub(crate) fn put_uuid(out: &mut Binary, uuid: &Uuid) -> Result<(), AllocError>
    ensures { OnOk result ((out.new ≡ out.old ++ uuid.now.bytes) × (length uuid.now.bytes ≡ 16)) }
{
    out.append(&uuid.bytes)
}

/// Adds a number in so many octets, the highest first.
pub(crate) fn put_octets(out: &mut Binary, width: SizeWidth, number: u64) -> Result<(), AllocError>
    requires { number < limit width }
    ensures { OnOk result (out.new ≡ out.old ++ octets width number) }
{
    match width {
        SizeWidth::One => out.push(number as u8),
        SizeWidth::Four => out.append(&(number as u32).to_be_bytes()),
    }
}

/// Adds a text behind its length.
pub(crate) fn put_text(out: &mut Binary, width: SizeWidth, bytes: &[u8]) -> Result<(), AllocError>
    requires { length bytes.now < limit width }
    ensures { OnOk result (out.new ≡ out.old ++ block width bytes.now) }
{
    put_octets(out, width, bytes.len() as u64)?;
    out.append(bytes)
}
