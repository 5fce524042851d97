//! Why a body is not read or written.
ghost use Rattle.std.specs.Prelude.{◌≡◌};
ghost use Rattle.amqp_fields.specs.declared.error.BaseError.TheVariants.{Memory};
ghost use Rattle.amqp_fields.specs.Error.{IsMemory};

use std::alloc::{AllocError, AllocFailed};
use thiserror::Error;

/// Why a body is not read or written.
#[derive(Clone, Copy, Debug, PartialEq, Eq, Error)]
pub enum BaseError {
    /// There was not enough memory.
    #[error("Memory")]
    Memory(AllocError),
    /// The bytes spell no such body.
    #[error("Decode")]
    Decode,
    /// A length needs more than 32 bits, or a value is nested too deep.
    #[error("Size")]
    Size,
}

impl From<AllocError> for BaseError {
    ghost from_gives = { λ a e. e ≡ Memory a };

    fn from(error: AllocError) -> Self {
        BaseError::Memory(error)
    }
}

impl<T: Drop> From<AllocFailed<T>> for BaseError {
    ghost from_gives = { λ _ e. IsMemory e };

    fn from(failed: AllocFailed<T>) -> Self {
        BaseError::Memory(AllocError::from(failed))
    }
}
