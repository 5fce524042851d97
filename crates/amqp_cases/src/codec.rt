//! What comes of the bytes of a case.
use crate::came::{Came, Refusal};
use crate::kind::Kind;
use amqp_frames::{decode_body, encode_body};
use amqp_message_faults::{Fault, fault_in_message};
use amqp_message_pieces::decode_message_pieces;
use amqp_messages::{decode_message, encode_message};
use amqp_sasl_bodies::{decode_sasl, encode_sasl};
use amqp_sizes::body_size;
use amqp_skips::{section_start, skip_value};
use amqp_text::Binary;
use amqp_value::{PayloadList, Value, read_value, read_value_within, read_values, to_vec};
use std::alloc::{AllocError, Global};
use std::hash::{DefaultHasher, Hash, Hasher};

/// The bytes of the value, written again.
fn value_again(alloc: Global, bytes: &[u8], levels: u8) -> Result<Binary, Refusal> {
    let (value, used) = read_value_within(alloc, bytes, levels)?;
    if used < bytes.len() {
        return Err(Refusal::Rest);
    }
    let again = to_vec(alloc, &value)?;
    Ok(again)
}

/// How the value prints.
fn value_shown(alloc: Global, bytes: &[u8]) -> Result<String, Refusal> {
    let (value, used) = read_value(alloc, bytes)?;
    if used < bytes.len() {
        return Err(Refusal::Rest);
    }
    let text = format!(in alloc; "{value:?}")?;
    Ok(text)
}

/// How many bytes the value at the front takes.
fn front_len(alloc: Global, bytes: &[u8], levels: u8) -> Result<usize, Refusal> {
    let (_, used) = read_value_within(alloc, bytes, levels)?;
    Ok(used)
}

/// How many bytes the value at the front takes, told without making it.
fn skipped_len(bytes: &[u8]) -> Result<usize, Refusal> {
    let used = skip_value(bytes)?;
    Ok(used)
}

/// How many values fill the bytes.
fn values_count(alloc: Global, bytes: &[u8], levels: u8) -> Result<usize, Refusal> {
    let values = read_values(alloc, bytes, levels)?;
    Ok(values.len())
}

/// The hash of a value.
fn hash_of(value: &Value) -> u64 {
    let mut state = DefaultHasher::new();
    value.hash(&mut state);
    state.finish()
}

/// How many different hashes the values have that fill the bytes.
fn hashes_count(alloc: Global, bytes: &[u8], levels: u8) -> Result<usize, Refusal> {
    let values = read_values(alloc, bytes, levels)?;
    let mut hashes = Vec::new(alloc);
    for value in values.as_slice() {
        hashes.push(hash_of(value)).map_err(AllocError::from)?;
    }
    hashes.sort_unstable();
    hashes.dedup();
    Ok(hashes.len())
}

/// The bytes of a frame's body, written again.
fn body_again(alloc: Global, bytes: &[u8]) -> Result<Binary, Refusal> {
    let body = decode_body(alloc, bytes)?;
    let again = encode_body(alloc, &body)?;
    Ok(again)
}

/// How many bytes are written of a frame's body.
fn body_len(alloc: Global, bytes: &[u8]) -> Result<usize, Refusal> {
    let body = decode_body(alloc, bytes)?;
    let size = body_size(&body)?;
    Ok(size as usize)
}

/// The bytes of a SASL body, written again.
fn sasl_again(alloc: Global, bytes: &[u8]) -> Result<Binary, Refusal> {
    let body = decode_sasl(alloc, bytes)?;
    let again = encode_sasl(alloc, &body)?;
    Ok(again)
}

/// The bytes of a message, written again.
fn message_again(alloc: Global, bytes: &[u8]) -> Result<Binary, Refusal> {
    let message = decode_message(alloc, bytes)?;
    let again = encode_message(alloc, &message)?;
    Ok(again)
}

/// How many sections are looked for at most.
const MOST_SECTIONS: u32 = 100;

/// Where the sections of a message begin, and behind them where the last ends.
fn section_starts(alloc: Global, bytes: &[u8]) -> Result<String, Refusal> {
    let mut starts = format!(in alloc; "0")?;
    for place in 1..MOST_SECTIONS {
        let Ok(start) = section_start(bytes, place) else {
            break;
        };
        starts = format!(in alloc; "{starts} {start}")?;
    }
    Ok(starts)
}

/// How many bytes a piece has.
const PIECE: usize = 7;

/// The bytes in pieces, the last of which may be shorter.
fn in_pieces(alloc: Global, bytes: &[u8]) -> Result<PayloadList, Refusal> {
    let mut payload = PayloadList::new(alloc);
    for piece in bytes.chunks(PIECE) {
        let piece = Binary::from_slice(alloc, piece)?.into_bytes()?;
        payload.push(piece)?;
    }
    Ok(payload)
}

/// The bytes of a message that came in pieces, written again.
fn pieces_again(alloc: Global, bytes: &[u8]) -> Result<Binary, Refusal> {
    let payload = in_pieces(alloc, bytes)?;
    let message = decode_message_pieces(alloc, &payload)?;
    let again = encode_message(alloc, &message)?;
    Ok(again)
}

/// Where and why the bytes are no message.
fn message_fault(alloc: Global, bytes: &[u8]) -> Result<String, Refusal> {
    let text = match fault_in_message(alloc, bytes)? {
        Some(Fault { offset, reason }) => format!(in alloc; "{offset} {reason}")?,
        None => format!(in alloc; "none")?,
    };
    Ok(text)
}

/// What comes of bytes, with that many levels where the kind counts them.
fn try_codec(alloc: Global, kind: Kind, bytes: &[u8], levels: u8) -> Result<Came, Refusal> {
    match kind {
        Kind::Values => Ok(Came::Bytes(value_again(alloc, bytes, levels)?)),
        Kind::Shown => Ok(Came::Text(value_shown(alloc, bytes)?)),
        Kind::Fronts => Ok(Came::Count(front_len(alloc, bytes, levels)?)),
        Kind::Skips => Ok(Came::Count(skipped_len(bytes)?)),
        Kind::Sequences => Ok(Came::Count(values_count(alloc, bytes, levels)?)),
        Kind::Hashes => Ok(Came::Count(hashes_count(alloc, bytes, levels)?)),
        Kind::Bodies => Ok(Came::Bytes(body_again(alloc, bytes)?)),
        Kind::Sizes => Ok(Came::Count(body_len(alloc, bytes)?)),
        Kind::Sasl => Ok(Came::Bytes(sasl_again(alloc, bytes)?)),
        Kind::Messages => Ok(Came::Bytes(message_again(alloc, bytes)?)),
        Kind::Pieces => Ok(Came::Bytes(pieces_again(alloc, bytes)?)),
        Kind::Starts => Ok(Came::Text(section_starts(alloc, bytes)?)),
        Kind::Faults => Ok(Came::Text(message_fault(alloc, bytes)?)),
    }
}

/// What comes of bytes, with that many levels where the kind counts them.
pub fn came_of(alloc: Global, kind: Kind, bytes: &[u8], levels: u8) -> Came {
    match try_codec(alloc, kind, bytes, levels) {
        Ok(came) => came,
        Err(refusal) => Came::Refused(refusal),
    }
}
