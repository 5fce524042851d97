//! What came of a case.
use amqp_fields::BaseError;
use amqp_text::Binary;
use amqp_value::{PayloadError, ValueError};
use case_files::{NotationError, read_bytes};
use std::alloc::{AllocError, Global};
use std::fmt;

/// Why nothing came.
#[derive(Clone, Copy, Debug, PartialEq, Eq)]
pub enum Refusal {
    /// There was not enough memory.
    Memory(AllocError),
    /// The bytes spell nothing.
    Decode,
    /// A value is nested too deep to be written.
    Depth,
    /// A length needs more than 32 bits, or a value is nested too deep.
    Size,
    /// Bytes stand behind the value.
    Rest,
    /// What is given is not written as its kind wants it.
    BadCase,
}

impl Refusal {
    /// How a case names it.
    pub fn name(self) -> &'static str {
        match self {
            Refusal::Memory(_) => "Memory",
            Refusal::Decode => "Decode",
            Refusal::Depth => "Depth",
            Refusal::Size => "Size",
            Refusal::Rest => "Rest",
            Refusal::BadCase => "BadCase",
        }
    }
}

impl From<AllocError> for Refusal {
    fn from(error: AllocError) -> Self {
        Refusal::Memory(error)
    }
}

impl From<NotationError> for Refusal {
    fn from(error: NotationError) -> Self {
        match error {
            NotationError::Memory(error) => Refusal::Memory(error),
            NotationError::BadWord => Refusal::BadCase,
        }
    }
}

impl From<ValueError> for Refusal {
    fn from(error: ValueError) -> Self {
        match error {
            ValueError::Memory(error) => Refusal::Memory(error),
            ValueError::Decode | ValueError::Short => Refusal::Decode,
            ValueError::Depth => Refusal::Depth,
            ValueError::Size => Refusal::Size,
        }
    }
}

impl From<BaseError> for Refusal {
    fn from(error: BaseError) -> Self {
        match error {
            BaseError::Memory(error) => Refusal::Memory(error),
            BaseError::Decode => Refusal::Decode,
            BaseError::Size => Refusal::Size,
        }
    }
}

impl From<PayloadError> for Refusal {
    fn from(error: PayloadError) -> Self {
        match error {
            PayloadError::Memory(error) => Refusal::Memory(error),
            PayloadError::Length => Refusal::Size,
        }
    }
}

/// What came of a case.
#[derive(Debug, Drop)]
pub enum Came {
    /// Bytes that were written.
    Bytes(Binary),
    /// A text.
    Text(String),
    /// A number.
    Count(usize),
    /// Nothing.
    Refused(Refusal),
}

impl Came {
    /// Whether it is what the case wants, where those bytes were given: `same` are these bytes.
    pub fn is_wanted(&self, alloc: Global, given: &[u8], wanted: &str) -> Result<bool, AllocError> {
        match self {
            Came::Bytes(bytes) if wanted == "same" => Ok(bytes.as_slice() == given),
            Came::Bytes(bytes) => is_written(alloc, bytes.as_slice(), wanted),
            Came::Text(text) => Ok(text.as_str() == wanted),
            Came::Count(count) => Ok(wanted.parse::<usize>() == Ok(*count)),
            Came::Refused(refusal) => Ok(refusal.name() == wanted),
        }
    }
}

/// Whether a text writes those bytes.
fn is_written(alloc: Global, bytes: &[u8], text: &str) -> Result<bool, AllocError> {
    match read_bytes(alloc, text) {
        Ok(written) => Ok(written.as_slice() == bytes),
        Err(NotationError::Memory(error)) => Err(error),
        Err(NotationError::BadWord) => Ok(false),
    }
}

/// How many bytes are printed.
const MOST_PRINTED: usize = 300;

impl fmt::Display for Came {
    fn fmt<W: fmt::Write>(&self, f: &mut fmt::Formatter<W>) -> fmt::Result {
        match self {
            Came::Bytes(bytes) => {
                let count = bytes.len();
                write!(f, "{count} bytes ")?;
                for byte in bytes.as_slice().iter().take(MOST_PRINTED) {
                    write!(f, "{byte:02x}")?;
                }
                Ok(())
            }
            Came::Text(text) => write!(f, "{text}"),
            Came::Count(count) => write!(f, "{count}"),
            Came::Refused(refusal) => {
                let name = refusal.name();
                write!(f, "{name}")
            }
        }
    }
}
