//! Messages whose bytes came in pieces (OASIS AMQP 1.0, part 3, section 3.2).
#![tactic(auto)]

ghost use Rattle.std.specs.Prelude.{◌≡◌, IfOk, IfSome};
ghost use Rattle.amqp_messages.specs.Reading.{IsTheMessage, SpellsMessage};
ghost use Rattle.amqp_value.specs.Pieces.{joined};

use amqp_fields::BaseError;
use amqp_messages::{Message, decode_message};
use amqp_text::Binary;
use amqp_value::PayloadList;
use bytes::Bytes;
use std::alloc::{AllocError, Global};

/// The bytes of the pieces, one after another.
fn joined(alloc: Global, pieces: &[Bytes]) -> Result<Binary, AllocError>
    ensures { IfOk result (λ bytes. bytes ≡ joined pieces.now) }
{
    let mut bytes = Binary::new(alloc);
    for piece in pieces {
        bytes.append(piece.as_slice())?;
    }
    Ok(bytes)
}

/// The piece, where there is one alone.
fn only_piece(pieces: &[Bytes]) -> Option<&Bytes>
    ensures { IfSome result (λ piece. joined pieces.now ≡ piece.now) }
{
    match pieces {
        [piece] => Some(piece),
        _ => None,
    }
}

/// The message that the whole payload spells, as `decode_message` reads it from the bytes of all pieces: `Decode` exactly where they
/// spell none. One piece is read where it lies; several are copied together first.
pub fn decode_message_pieces(alloc: Global, payload: &PayloadList) -> Result<Message, BaseError>
    ensures { IsTheMessage result (SpellsMessage (joined payload.now)) }
{
    let pieces = payload.as_slice();
    match only_piece(pieces) {
        Some(piece) => decode_message(alloc, piece.as_slice()),
        None => {
            let bytes = joined(alloc, pieces)?;
            decode_message(alloc, bytes.as_slice())
        }
    }
}
