//! Why a value is not read or written.
ghost use Rattle.std.specs.Prelude.{◌≡◌};
ghost use Rattle.amqp_value.specs.declared.error.ValueError.TheVariants.{Memory};
ghost use Rattle.amqp_value.specs.ReadErrors.{IsMemory, from_text_error, from_symbol_error, from_map_error};

use amqp_data::MapError;
use amqp_text::symbol::SymbolError;
use amqp_text::text::TextError;
use std::alloc::{AllocError, AllocFailed};
use thiserror::Error;

/// Why a value is not read or written, or bytes of a payload are not there.
#[derive(Clone, Copy, Debug, PartialEq, Eq, Error)]
pub enum ValueError {
    /// There was not enough memory.
    #[error("Memory")]
    Memory(AllocError),
    /// No spelling of a value begins the bytes.
    #[error("Decode")]
    Decode,
    /// The value is nested more than 32 deep.
    #[error("Depth")]
    Depth,
    /// A length needs more than 32 bits.
    #[error("Size")]
    Size,
    /// Fewer bytes are left than were asked for.
    #[error("Short")]
    Short,
}

impl From<AllocError> for ValueError {
    ghost from_gives = { λ a e. e ≡ Memory a };

    fn from(error: AllocError) -> Self {
        ValueError::Memory(error)
    }
}

impl<T: Drop> From<AllocFailed<T>> for ValueError {
    ghost from_gives = { λ _ e. IsMemory e };

    fn from(failed: AllocFailed<T>) -> Self {
        ValueError::Memory(AllocError::from(failed))
    }
}

impl From<TextError> for ValueError {
    ghost from_gives = { λ t e. e ≡ from_text_error t };

    fn from(error: TextError) -> Self {
        match error {
            TextError::Memory(error) => ValueError::Memory(error),
            TextError::NotUtf8 => ValueError::Decode,
        }
    }
}

impl From<SymbolError> for ValueError {
    ghost from_gives = { λ s e. e ≡ from_symbol_error s };

    fn from(error: SymbolError) -> Self {
        match error {
            SymbolError::Memory(error) => ValueError::Memory(error),
            SymbolError::NotAscii => ValueError::Decode,
        }
    }
}

impl From<MapError> for ValueError {
    ghost from_gives = { λ m e. e ≡ from_map_error m };

    fn from(error: MapError) -> Self {
        match error {
            MapError::Memory(error) => ValueError::Memory(error),
            MapError::DuplicateKey => ValueError::Decode,
        }
    }
}
