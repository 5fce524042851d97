//! What comes of a case.
//!
//! The first line builds the session, and each other one does something at it:
//!
//! | line | what is done |
//! |---|---|
//! | `begin SETTINGS` | this end begins the session |
//! | `accept FRAME SETTINGS` | the peer has begun it, by the Begin of that frame |
//! | `hears FRAME` | a frame is read |
//! | `sends FRAME` | a link writes a frame; only its body counts |
//! | `ends`, `ends CONDITION` | this end ends the session, for an error |
//! | `stops` | the connection is closed |
//! | `refuses` | the links have no place for an Attach of the peer |
//! | `input` | the first of what is handed to the links is taken |
//!
//! A frame is in hexadecimal, as `case_files` reads it. Of the line of number N, counted from 0, comes first `N error NAME` where it
//! is refused, or for what it takes `N took FRAME`, `N left handle=HANDLE number=NUMBER tag=TAG settled=BOOL` for a delivery of this
//! end that has begun to leave, `N stopped REASON` or `N over`, or `N none` where nothing was there, and then `N wrote FRAME` for each
//! frame that is to be written. A REASON is the name of a variant of `SessionStopReason`, and behind it is the condition of its error.
use crate::error::CaseError;
use crate::frame::{read_frame, read_link_frame, write_body};
use crate::settings::{read_channel, read_settings};
use amqp_composites::error::Error as AmqpError;
use amqp_data::Symbol;
use amqp_frames::{ConnectionStopReason, FrameBody, IncomingSession, SessionStopReason, let_go};
use amqp_session::{Error, LeftDelivery, LinkInput, Session};
use std::alloc::{AllocError, Global};

/// The most frames that come of one line.
const MOST: u32 = 1000;

/// The session that the peer has begun.
fn accept(alloc: Global, words: &str) -> Result<Session, CaseError> {
    let (frame, settings) = words.split_once(' ').unwrap_or((words, ""));
    let (channel, body) = read_frame(alloc, frame)?.into_parts();
    match body {
        FrameBody::Begin(begin) => {
            let incoming = IncomingSession { channel, begin };
            let own = read_channel(settings)?;
            let session = Session::accept(alloc, read_settings(settings)?, own, incoming)?;
            Ok(session)
        }
        other => {
            let_go(other);
            Err(CaseError::Malformed)
        }
    }
}

/// The session of the first line.
fn start(alloc: Global, line: &str) -> Result<Session, CaseError> {
    match line.split_once(' ').unwrap_or((line, "")) {
        ("accept", words) => accept(alloc, words),
        ("begin", words) => {
            let channel = read_channel(words)?;
            let session = Session::begin(alloc, read_settings(words)?, channel)?;
            Ok(session)
        }
        _ => Err(CaseError::Malformed),
    }
}

/// The error of that condition.
fn error_of(alloc: Global, condition: &str) -> Result<AmqpError, CaseError> {
    match Symbol::from_str(alloc, condition) {
        Ok(condition) => Ok(AmqpError {
            condition,
            description: None,
            info: None,
        }),
        Err(_) => Err(CaseError::Malformed),
    }
}

/// The text of a delivery that has begun to leave.
fn left_text(alloc: Global, left: LeftDelivery) -> Result<String, CaseError> {
    let LeftDelivery {
        handle,
        delivery_id,
        delivery_tag,
        settled,
    } = left;
    let tag = match hex::encode(alloc, delivery_tag.as_slice()) {
        Ok(tag) => tag,
        Err(_) => return Err(CaseError::Memory(AllocError)),
    };
    let text = format!(in alloc;
        "left handle={handle} number={delivery_id} tag={tag} settled={settled}"
    )?;
    Ok(text)
}

/// The text of a reason with an error.
fn error_text(alloc: Global, name: &str, error: AmqpError) -> Result<String, CaseError> {
    let condition = error.condition;
    let text = format!(in alloc; "stopped {name} {condition}")?;
    Ok(text)
}

/// The text of the reason for which the session has stopped.
fn stop_text(alloc: Global, reason: SessionStopReason) -> Result<String, CaseError> {
    match reason {
        SessionStopReason::Ended => Ok(String::from_str(alloc, "stopped Ended")?),
        SessionStopReason::EndedWithError(error) => error_text(alloc, "EndedWithError", error),
        SessionStopReason::RemoteEnded => Ok(String::from_str(alloc, "stopped RemoteEnded")?),
        SessionStopReason::RemoteEndedWithError(error) => {
            error_text(alloc, "RemoteEndedWithError", error)
        }
        SessionStopReason::ConnectionStopped(reason) => {
            drop(reason);
            Ok(String::from_str(alloc, "stopped ConnectionStopped")?)
        }
    }
}

/// The text of a frame that a line takes, on no channel.
fn frame_text(alloc: Global, body: FrameBody) -> Result<String, CaseError> {
    let frame = write_body(alloc, 0, body)?;
    let text = format!(in alloc; "took {frame}")?;
    Ok(text)
}

/// The text of what is handed to the links.
fn input_text(alloc: Global, input: LinkInput) -> Result<String, CaseError> {
    match input {
        LinkInput::Attach(attach) => frame_text(alloc, FrameBody::Attach(attach)),
        LinkInput::Flow(flow) => frame_text(alloc, FrameBody::Flow(flow)),
        LinkInput::Transfer(transfer, payload) => {
            frame_text(alloc, FrameBody::Transfer(transfer, payload))
        }
        LinkInput::Disposition(disposition) => {
            frame_text(alloc, FrameBody::Disposition(disposition))
        }
        LinkInput::Detach(detach) => frame_text(alloc, FrameBody::Detach(detach)),
        LinkInput::Left(left) => left_text(alloc, left),
        LinkInput::Stopped(reason) => stop_text(alloc, reason),
        LinkInput::Over => Ok(String::from_str(alloc, "over")?),
    }
}

/// What a line takes of what is handed to the links.
fn taken(alloc: Global, input: Option<LinkInput>) -> Result<String, CaseError> {
    match input {
        Some(input) => input_text(alloc, input),
        None => Ok(String::from_str(alloc, "none")?),
    }
}

/// What a line is answered: nothing, or why it is refused.
fn answer(alloc: Global, outcome: Result<(), Error>) -> Result<String, CaseError> {
    match outcome {
        Ok(()) => Ok(String::new(alloc)),
        Err(error) => {
            let text = format!(in alloc; "error {error}")?;
            Ok(text)
        }
    }
}

/// Does what a line of one word says.
fn act(alloc: Global, session: &mut Session, word: &str) -> Result<String, CaseError> {
    match word {
        "ends" => answer(alloc, session.end()),
        "refuses" => answer(alloc, session.refuse_attach()),
        "stops" => {
            session.stop(SessionStopReason::ConnectionStopped(ConnectionStopReason::Closed))?;
            Ok(String::new(alloc))
        }
        "input" => taken(alloc, session.take_for_link()),
        _ => Err(CaseError::Malformed),
    }
}

/// Does what a line says.
fn turn(alloc: Global, session: &mut Session, line: &str) -> Result<String, CaseError> {
    match line.split_once(' ') {
        Some(("hears", frame)) => {
            let frame = read_frame(alloc, frame)?;
            answer(alloc, session.on_frame(frame))
        }
        Some(("sends", frame)) => {
            let frame = read_link_frame(alloc, frame)?;
            answer(alloc, session.on_link_frame(frame))
        }
        Some(("ends", condition)) => {
            let error = error_of(alloc, condition)?;
            answer(alloc, session.end_with_error(error))
        }
        Some(_) => Err(CaseError::Malformed),
        None => act(alloc, session, line),
    }
}

/// Adds the frames that are to be written.
fn add_written(
    alloc: Global,
    session: &mut Session,
    number: u64,
    text: &mut String,
) -> Result<(), CaseError> {
    for _ in 0..MOST {
        let Some(frame) = session.take_output() else {
            return Ok(());
        };
        let (channel, body) = frame.into_parts();
        let frame = write_body(alloc, channel, body)?;
        let line = format!(in alloc; "{number} wrote {frame}\n")?;
        text.push_str(line.as_str())?;
    }
    Ok(())
}

/// What a case comes to.
pub fn outcome(alloc: Global, given: &str) -> Result<String, CaseError> {
    let mut text = String::new(alloc);
    let (first, rest) = given.split_once('\n').unwrap_or((given, ""));
    let mut session = start(alloc, first)?;
    add_written(alloc, &mut session, 0, &mut text)?;
    let mut number = 0u64;
    for line in rest.lines() {
        number = number.saturating_add(1);
        let told = turn(alloc, &mut session, line)?;
        if !told.as_str().is_empty() {
            let line = format!(in alloc; "{number} {told}\n")?;
            text.push_str(line.as_str())?;
        }
        add_written(alloc, &mut session, number, &mut text)?;
    }
    Ok(text)
}
