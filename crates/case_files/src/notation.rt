//! Bytes as they are written in files of cases.
//!
//! Bytes are words with blanks between them. A word is one of
//!
//! - `005340`: bytes in hexadecimal,
//! - `"text"`: the bytes of a text without blanks,
//! - `(40)*300`: bytes, so many times,
//! - `(70#40)*256..1000`: bytes around a number, once for each number from the first to before the last. The number has one byte
//!   where the last is at most 256, and else four.
use std::alloc::{AllocError, Global};

/// Why a text is not read as bytes.
#[derive(Clone, Copy, Debug, PartialEq, Eq)]
pub enum NotationError {
    /// There was not enough memory.
    Memory(AllocError),
    /// A word is none of those.
    BadWord,
}

impl From<AllocError> for NotationError {
    fn from(error: AllocError) -> Self {
        NotationError::Memory(error)
    }
}

impl From<hex::FromHexError> for NotationError {
    fn from(error: hex::FromHexError) -> Self {
        match error {
            hex::FromHexError::OutOfMemory => NotationError::Memory(AllocError),
            _ => NotationError::BadWord,
        }
    }
}

/// A number in decimal digits.
fn number(text: &str) -> Result<u32, NotationError> {
    match text.parse::<u32>() {
        Ok(number) => Ok(number),
        Err(_) => Err(NotationError::BadWord),
    }
}

/// Adds the bytes so many times.
fn repeat(bytes: &mut Vec<u8>, piece: &[u8], times: u32) -> Result<(), AllocError> {
    for _ in 0..times {
        bytes.extend_from_slice(piece)?;
    }
    Ok(())
}

/// Adds the number in one byte or in four.
fn push_number(bytes: &mut Vec<u8>, number: u32, is_short: bool) -> Result<(), AllocError> {
    let octets = number.to_be_bytes();
    if is_short {
        bytes.push(octets[3])?;
    } else {
        bytes.extend_from_slice(&octets)?;
    }
    Ok(())
}

/// Adds the bytes around each number of `first..last`.
fn count(
    bytes: &mut Vec<u8>,
    front: &[u8],
    back: &[u8],
    range: (u32, u32),
) -> Result<(), AllocError> {
    let (first, last) = range;
    for number in first..last {
        bytes.extend_from_slice(front)?;
        push_number(bytes, number, last <= 256)?;
        bytes.extend_from_slice(back)?;
    }
    Ok(())
}

/// Adds the bytes of what stands in parentheses and of the times or numbers behind it.
fn push_group(
    alloc: Global,
    bytes: &mut Vec<u8>,
    group: &str,
    times: &str,
) -> Result<(), NotationError> {
    match group.split_once('#') {
        None => {
            let piece = hex::decode(alloc, group)?;
            repeat(bytes, piece.as_slice(), number(times)?)?;
        }
        Some((front, back)) => {
            let Some((first, last)) = times.split_once("..") else {
                return Err(NotationError::BadWord);
            };
            let front = hex::decode(alloc, front)?;
            let back = hex::decode(alloc, back)?;
            let range = (number(first)?, number(last)?);
            count(bytes, front.as_slice(), back.as_slice(), range)?;
        }
    }
    Ok(())
}

/// Adds the bytes of a word.
fn push_word(alloc: Global, bytes: &mut Vec<u8>, word: &str) -> Result<(), NotationError> {
    if let Some(text) = quoted(word) {
        bytes.extend_from_slice(text.as_bytes())?;
        return Ok(());
    }
    if let Some((group, times)) = grouped(word) {
        return push_group(alloc, bytes, group, times);
    }
    let piece = hex::decode(alloc, word)?;
    bytes.extend_from_slice(piece.as_slice())?;
    Ok(())
}

/// What stands between quotes.
fn quoted(word: &str) -> Option<&str> {
    word.strip_prefix('"')?.strip_suffix('"')
}

/// What stands in parentheses, and what behind the asterisk.
fn grouped(word: &str) -> Option<(&str, &str)> {
    word.strip_prefix('(')?.split_once(")*")
}

/// The bytes that the words of a text write.
pub fn read_bytes(alloc: Global, text: &str) -> Result<Vec<u8>, NotationError> {
    let mut bytes = Vec::new(alloc);
    for word in text.split_whitespace() {
        push_word(alloc, &mut bytes, word)?;
    }
    Ok(bytes)
}
