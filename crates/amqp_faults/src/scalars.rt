//! Values that hold no other value, behind their constructor (OASIS AMQP 1.0, part 1, sections 1.6.1 to 1.6.21).
ghost use Rattle.std.specs.Prelude.{◌≡◌, ◌+◌, ◌<◌, ◌≤◌, length, slice_index, IfSome, nat_lt};
ghost use Rattle.std.specs.Int.{w32, from_be_bytes};
ghost use Rattle.std.specs.Str.{is_utf8};
ghost use lib.Utf8.{scalar as is_scalar};
ghost use Rattle.amqp_value.specs.Reading.{is_ascii};
ghost use Rattle.amqp_faults.specs.Faults.{laid_at, is_like};
ghost use Rattle.amqp_faults.specs.Sees.{Sees, SeesScalar, IsLaid};

use crate::blocks::{take_block, take_bytes};
use crate::fault::Reason;
use crate::form::Layout;
use std::str;

/// The bytes behind a constructor with that layout, and those after them.
fn laid(layout: Layout, bytes: &[u8]) -> Option<(&[u8], &[u8])>
    ensures taken { Sees (λ x. (x.0.now, x.1.now)) result (laid_at layout bytes.now) }
    ensures long { IfSome result (λ x. IsLaid layout x.0.now) }
    ensures within { IfSome result (λ x. length x.1.now ≤ length bytes.now) }
{
    match layout {
        Layout::Fixed(count) => take_bytes(count as usize, bytes),
        Layout::Boolean => take_bytes(1, bytes),
        Layout::Character => take_bytes(4, bytes),
        Layout::Binary(width) => take_block(width, bytes),
        Layout::String(width) => take_block(width, bytes),
        Layout::Symbol(width) => take_block(width, bytes),
    }
}

fn is_truth(octets: &[u8]) -> bool
    requires { length octets.now ≡ 1 }
    ensures { result ≡ nat_lt (slice_index octets.now 0) 2 }
{
    octets[0] < 2
}

fn is_character(octets: &[u8]) -> bool
    requires { length octets.now ≡ 4 }
    ensures { result ≡ is_scalar (from_be_bytes w32 octets.now) }
{
    let number = u32::from_be_bytes([octets[0], octets[1], octets[2], octets[3]]);
    char::from_u32(number).is_some()
}

fn is_text(octets: &[u8]) -> bool
    ensures { result ≡ is_utf8 octets.now }
{
    str::from_utf8(octets).is_ok()
}

fn is_symbol(octets: &[u8]) -> bool
    ensures { result ≡ is_ascii octets.now }
{
    octets.iter().all(|byte| *byte < 128)
}

/// Whether the bytes are what the layout is to hold.
fn is_like(layout: Layout, octets: &[u8]) -> bool
    requires { IsLaid layout octets.now }
    ensures { result ≡ is_like layout octets.now }
{
    match layout {
        Layout::Fixed(_) | Layout::Binary(_) => true,
        Layout::Boolean => is_truth(octets),
        Layout::Character => is_character(octets),
        Layout::String(_) => is_text(octets),
        Layout::Symbol(_) => is_symbol(octets),
    }
}

/// The bytes after those that the layout takes of the front, or why it takes none.
pub fn pass(layout: Layout, bytes: &[u8]) -> Result<&[u8], Reason>
    ensures { SeesScalar (λ x. x.now) result layout bytes.now }
{
    match laid(layout, bytes) {
        None => Err(Reason::CutShort),
        Some((octets, rest)) => {
            if is_like(layout, octets) {
                Ok(rest)
            } else {
                Err(layout.unlike())
            }
        }
    }
}
