//! Frames in hexadecimal (OASIS AMQP 1.0, part 2, section 2.3).
use crate::error::CaseError;
use amqp_frames::{FrameBody, LinkFrame, SessionFrame, decode_body, encode_body, let_go};
use case_files::read_bytes;
use std::alloc::{AllocError, Global};

/// The channel and the body of a frame whose header has eight bytes.
fn read_body(alloc: Global, text: &str) -> Result<(u16, FrameBody), CaseError> {
    let bytes = read_bytes(alloc, text)?;
    let [_, _, _, _, 2, 0, high, low, body @ ..] = bytes.as_slice() else {
        return Err(CaseError::Malformed);
    };
    let channel = u16::from_be_bytes([*high, *low]);
    let body = decode_body(alloc, body)?;
    Ok((channel, body))
}

/// A frame of a session.
pub fn read_frame(alloc: Global, text: &str) -> Result<SessionFrame, CaseError> {
    let (channel, body) = read_body(alloc, text)?;
    match SessionFrame::new(channel, body) {
        Ok(frame) => Ok(frame),
        Err(other) => {
            let_go(other);
            Err(CaseError::Malformed)
        }
    }
}

/// A frame of a link.
pub fn read_link_frame(alloc: Global, text: &str) -> Result<LinkFrame, CaseError> {
    let (_, body) = read_body(alloc, text)?;
    match body {
        FrameBody::Attach(attach) => Ok(LinkFrame::Attach(attach)),
        FrameBody::Flow(flow) => Ok(LinkFrame::Flow(flow)),
        FrameBody::Transfer(transfer, payload) => Ok(LinkFrame::Transfer(transfer, payload)),
        FrameBody::Disposition(disposition) => {
            Ok(LinkFrame::Disposition(disposition, Vec::new(alloc)))
        }
        FrameBody::Detach(detach) => Ok(LinkFrame::Detach(detach)),
        other => {
            let_go(other);
            Err(CaseError::Malformed)
        }
    }
}

/// The text of a frame with that body.
pub fn write_body(alloc: Global, channel: u16, body: FrameBody) -> Result<String, CaseError> {
    let written = encode_body(alloc, &body);
    let_go(body);
    let written = written?;
    let size = match u32::try_from(written.as_slice().len()) {
        Ok(size) => size.saturating_add(8),
        Err(_) => return Err(CaseError::Malformed),
    };
    let mut bytes = Vec::new(alloc);
    bytes.extend_from_slice(&size.to_be_bytes())?;
    bytes.extend_from_slice(&[2, 0])?;
    bytes.extend_from_slice(&channel.to_be_bytes())?;
    bytes.extend_from_slice(written.as_slice())?;
    match hex::encode(alloc, bytes.as_slice()) {
        Ok(text) => Ok(text),
        Err(_) => Err(CaseError::Memory(AllocError)),
    }
}
