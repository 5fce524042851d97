//! Numbers, and bytes behind their number (OASIS AMQP 1.0, part 1, sections 1.2.2 to 1.2.4).
ghost use Rattle.std.specs.Prelude.{◌≡◌, ◌+◌, [], ◌∷◌, length, IfSome, MatchOption};
ghost use Rattle.amqp_value.specs.Reading.{bytes_at, size_at, block_at};
ghost use Rattle.amqp_faults.specs.Forms.{octets_of, size_width};
ghost use Rattle.amqp_faults.specs.Sees.{Sees};

use crate::form::Width;

/// The first byte and those after it.
pub fn split(bytes: &[u8]) -> Option<(u8, &[u8])>
    ensures { MatchOption result (bytes.now ≡ []) (λ x. bytes.now ≡ x.0 ∷ x.1.now) }
{
    match bytes {
        [] => None,
        [first, rest @ ..] => Some((*first, rest)),
    }
}

/// So many bytes, and those after them.
pub fn take_bytes(count: usize, bytes: &[u8]) -> Option<(&[u8], &[u8])>
    ensures taken { Sees (λ x. (x.0.now, x.1.now)) result (bytes_at count bytes.now) }
    ensures size { IfSome result (λ x. length x.0.now ≡ count) }
    ensures within { IfSome result (λ x. count + length x.1.now ≡ length bytes.now) }
{
    if bytes.len() < count {
        return None;
    }
    Some(bytes.split_at(count))
}

#[tactic(auto, unfolding(amqp_value::specs::Reading::size_at))]
fn take_byte(bytes: &[u8]) -> Option<(u32, &[u8])>
    ensures taken { Sees (λ x. (x.0, x.1.now)) result (size_at (size_width Width.One) bytes.now) }
    ensures within { IfSome result (λ x. 1 + length x.1.now ≡ length bytes.now) }
{
    match bytes {
        [] => None,
        [first, rest @ ..] => Some((u32::from(*first), rest)),
    }
}

#[tactic(auto, unfolding(amqp_value::specs::Reading::size_at))]
fn take_number(bytes: &[u8]) -> Option<(u32, &[u8])>
    ensures taken { Sees (λ x. (x.0, x.1.now)) result (size_at (size_width Width.Four) bytes.now) }
    ensures within { IfSome result (λ x. 4 + length x.1.now ≡ length bytes.now) }
{
    if bytes.len() < 4 {
        return None;
    }
    let (front, rest) = bytes.split_at(4);
    let number = u32::from_be_bytes([front[0], front[1], front[2], front[3]]);
    Some((number, rest))
}

/// A size or a count of that width, and the bytes after it.
#[tactic(auto, unfolding(amqp_value::specs::Reading::size_at))]
pub fn take_size(width: Width, bytes: &[u8]) -> Option<(u32, &[u8])>
    ensures taken { Sees (λ x. (x.0, x.1.now)) result (size_at (size_width width) bytes.now) }
    ensures within { IfSome result (λ x. octets_of width + length x.1.now ≡ length bytes.now) }
{
    match width {
        Width::One => take_byte(bytes),
        Width::Four => take_number(bytes),
    }
}

/// The bytes that a size counts, and those after them.
#[tactic(auto, unfolding(amqp_value::specs::Reading::block_at))]
pub fn take_block(width: Width, bytes: &[u8]) -> Option<(&[u8], &[u8])>
    ensures taken { Sees (λ x. (x.0.now, x.1.now)) result (block_at (size_width width) bytes.now) }
    ensures within { IfSome result (λ x. octets_of width + (length x.0.now + length x.1.now) ≡ length bytes.now) }
{
    let (size, rest) = take_size(width, bytes)?;
    take_bytes(size as usize, rest)
}
