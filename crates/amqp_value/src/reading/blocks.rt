//! Numbers, and bytes behind their number (OASIS AMQP 1.0, part 1, sections 1.2.2 to 1.2.4).
ghost use Rattle.std.specs.Int.{w16, w32, w64};
ghost use Rattle.amqp_value.specs.Reading.{Gives, byte_at, number_at, bytes_at, size_at, block_at};

use crate::code::SizeWidth;
use crate::error::ValueError;

/// The first byte, and the bytes after it.
pub fn take_u8(bytes: &[u8]) -> Result<(u8, &[u8]), ValueError>
    ensures { Gives (λ x. (x.0, x.1.now)) result (byte_at bytes.now) }
{
    match bytes {
        [] => Err(ValueError::Decode),
        [first, rest @ ..] => Ok((*first, rest)),
    }
}

/// The number in the first two bytes, the highest first, and the bytes after it.
pub fn take_u16(bytes: &[u8]) -> Result<(u16, &[u8]), ValueError>
    ensures { Gives (λ x. (x.0, x.1.now)) result (number_at w16 bytes.now) }
{
    if bytes.len() < 2 {
        return Err(ValueError::Decode);
    }
    let (front, rest) = bytes.split_at(2);
    let number = u16::from_be_bytes([front[0], front[1]]);
    Ok((number, rest))
}

/// The number in the first four bytes, the highest first, and the bytes after it.
pub fn take_u32(bytes: &[u8]) -> Result<(u32, &[u8]), ValueError>
    ensures { Gives (λ x. (x.0, x.1.now)) result (number_at w32 bytes.now) }
{
    if bytes.len() < 4 {
        return Err(ValueError::Decode);
    }
    let (front, rest) = bytes.split_at(4);
    let number = u32::from_be_bytes([front[0], front[1], front[2], front[3]]);
    Ok((number, rest))
}

/// The number in the first eight bytes, the highest first, and the bytes after it.
pub fn take_u64(bytes: &[u8]) -> Result<(u64, &[u8]), ValueError>
    ensures { Gives (λ x. (x.0, x.1.now)) result (number_at w64 bytes.now) }
{
    if bytes.len() < 8 {
        return Err(ValueError::Decode);
    }
    let (front, rest) = bytes.split_at(8);
    let number = u64::from_be_bytes([
        front[0], front[1], front[2], front[3], front[4], front[5], front[6], front[7],
    ]);
    Ok((number, rest))
}

/// So many bytes, and those after them.
pub fn take_bytes(count: usize, bytes: &[u8]) -> Result<(&[u8], &[u8]), ValueError>
    ensures { Gives (λ x. (x.0.now, x.1.now)) result (bytes_at count bytes.now) }
{
    if bytes.len() < count {
        return Err(ValueError::Decode);
    }
    Ok(bytes.split_at(count))
}

/// A size or a count of that width, and the bytes after it.
#[tactic(auto, unfolding(crate::specs::Reading::size_at))]
pub fn take_size(width: SizeWidth, bytes: &[u8]) -> Result<(u32, &[u8]), ValueError>
    ensures { Gives (λ x. (x.0, x.1.now)) result (size_at width bytes.now) }
{
    match width {
        SizeWidth::One => {
            let (byte, rest) = take_u8(bytes)?;
            Ok((u32::from(byte), rest))
        }
        SizeWidth::Four => take_u32(bytes),
    }
}

/// The bytes that a size counts, and those after them.
#[tactic(auto, unfolding(crate::specs::Reading::block_at))]
pub fn take_block(width: SizeWidth, bytes: &[u8]) -> Result<(&[u8], &[u8]), ValueError>
    ensures { Gives (λ x. (x.0.now, x.1.now)) result (block_at width bytes.now) }
{
    let (size, rest) = take_size(width, bytes)?;
    take_bytes(size as usize, rest)
}
