//! What a session of a case is built with: words `KEY=NUMBER`, each of which may be left out.
//!
//! | key | default | field of the Begin |
//! |---|---|---|
//! | `next` | 0 | next-outgoing-id |
//! | `window` | 2048 | incoming-window |
//! | `outwindow` | 2048 | outgoing-window |
//! | `handles` | 255 | handle-max |
//! | `channel` | 0 | none: the channel of this end |
//! | `frame` | 512 | none: the limit of frames by which deliveries are split |
use crate::error::CaseError;
use amqp_session::SessionSettings;

/// The number of a key, or its default.
fn number(words: &str, key: &str, default: u32) -> Result<u32, CaseError> {
    for word in words.split_whitespace() {
        if let Some((name, value)) = word.split_once('=') {
            if name == key {
                return match value.parse::<u32>() {
                    Ok(number) => Ok(number),
                    Err(_) => Err(CaseError::Malformed),
                };
            }
        }
    }
    Ok(default)
}

/// The channel of this end.
pub fn read_channel(words: &str) -> Result<u16, CaseError> {
    match u16::try_from(number(words, "channel", 0)?) {
        Ok(channel) => Ok(channel),
        Err(_) => Err(CaseError::Malformed),
    }
}

/// What the session is built with.
pub fn read_settings(words: &str) -> Result<SessionSettings, CaseError> {
    Ok(SessionSettings {
        next_outgoing_id: number(words, "next", 0)?,
        incoming_window: number(words, "window", 2048)?,
        outgoing_window: number(words, "outwindow", 2048)?,
        handle_max: number(words, "handles", 255)?,
        offered_capabilities: None,
        desired_capabilities: None,
        properties: None,
        max_frame_size: number(words, "frame", 512)?,
    })
}
