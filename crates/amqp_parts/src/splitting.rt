//! How a delivery is split over frames (OASIS AMQP 1.0, part 2, section 2.6.14).
ghost use Rattle.std.specs.Prelude.{◌≡◌, ◌≤◌, length, IfOk, IfSome, is_some};
ghost use Rattle.amqp_parts.specs.Split.{IsSplit, bytes_of, continuation};
ghost use Rattle.amqp_parts.specs.Cut.{is_enough, filling, cut_length, cut_at, cut_of};

use crate::part::Part;
use crate::room::room_for;
use amqp_performatives::transfer::Transfer;
use bytes::Bytes;
use std::alloc::{AllocError, Global};

/// The first part of a delivery, and what is left of it.
#[derive(Drop)]
pub struct Cut {
    /// The first part.
    pub first: Part,
    /// What goes on with the delivery; none where the first part is the last.
    pub rest: Option<Part>,
}

/// What goes on with a delivery of that link.
fn continuation(handle: u32) -> Transfer
    ensures { result ≡ continuation handle }
{
    Transfer {
        handle,
        delivery_id: None,
        delivery_tag: None,
        message_format: None,
        settled: None,
        more: false,
        rcv_settle_mode: None,
        state: None,
        resume: false,
        aborted: false,
        batchable: false,
    }
}

/// Whether so many bytes have room.
fn is_enough(len: usize, room: Option<usize>) -> bool
    ensures { result ≡ is_enough len room }
{
    match room {
        Some(room) => len <= room,
        None => false,
    }
}

/// How many of so many bytes fill the room, where it is one at least and some are left.
fn filling(len: usize, room: Option<usize>) -> Option<usize>
    ensures { result ≡ filling len room }
{
    match room {
        Some(room) if 0 < room && room < len => Some(room),
        _ => None,
    }
}

/// How many of so many bytes the next part takes; none where it is the last. It is said in the Transfer whether there is more.
fn cut_length(
    alloc: Global,
    transfer: &mut Transfer,
    len: usize,
    max_frame: u32,
) -> Result<Option<usize>, AllocError>
    ensures length { IfOk result (λ n. n ≡ cut_length max_frame transfer.old len) }
    ensures said { IfOk result (λ n. transfer.new ≡ record transfer.old { more = is_some n }) }
{
    transfer.more = false;
    let room = room_for(alloc, transfer, max_frame)?;
    if is_enough(len, room) {
        return Ok(None);
    }
    transfer.more = true;
    let room = room_for(alloc, transfer, max_frame)?;
    let filling = filling(len, room);
    transfer.more = filling.is_some();
    Ok(filling)
}

/// The part with so many of the bytes, and what is left; without a length, all of it.
fn cut_at(len: Option<usize>, said: Transfer, payload: Bytes) -> Result<Cut, AllocError>
    requires within { IfSome len (λ n. n ≤ length payload) }
    requires said { said.more ≡ is_some len }
    ensures { IfOk result (λ cut. cut ≡ cut_at len said payload) }
{
    let mut rest = payload;
    let Some(len) = len else {
        return Ok(Cut {
            first: Part {
                transfer: said,
                payload: rest,
            },
            rest: None,
        });
    };
    let transfer = continuation(said.handle);
    let payload = rest.split_to(len)?;
    Ok(Cut {
        first: Part {
            transfer: said,
            payload,
        },
        rest: Some(Part {
            transfer,
            payload: rest,
        }),
    })
}

/// The first part of a delivery, for a frame of at most that many bytes, and what is left of it: what fits in one frame is the last
/// part; else a part that says that there is more fills its frame. Where no byte would fit beside the fields, all of it is the last
/// part. What is left names the link and nothing else. The one error is want of memory.
pub fn first_part(
    alloc: Global,
    transfer: Transfer,
    payload: Bytes,
    max_frame: u32,
) -> Result<Cut, AllocError>
    ensures { IfOk result (λ cut. cut ≡ cut_of max_frame transfer payload) }
{
    let mut said = transfer;
    let len = cut_length(alloc, &mut said, payload.len(), max_frame)?;
    cut_at(len, said, payload)
}

/// The parts of a delivery, in order, each for a frame of at most that many bytes: its first part, and the parts of what is left. The
/// one error is want of memory.
pub fn split(
    alloc: Global,
    transfer: Transfer,
    payload: Bytes,
    max_frame: u32,
) -> Result<Vec<Part>, AllocError>
    ensures parts { IfOk result (λ parts. IsSplit max_frame transfer payload parts.items) }
    ensures bytes { IfOk result (λ parts. bytes_of parts.items ≡ payload) }
{
    let mut parts = Vec::new(alloc);
    let Cut { first, rest } = first_part(alloc, transfer, payload, max_frame)?;
    parts.push(first)?;
    let mut left = rest;
    while let Some(part) = left {
        let (transfer, payload) = part.into_parts();
        let Cut { first, rest } = first_part(alloc, transfer, payload, max_frame)?;
        parts.push(first)?;
        left = rest;
    }
    Ok(parts)
}
