//! Why a link gets no handle.

use std::alloc::AllocError;
use thiserror::Error;

/// Why a link gets no handle.
#[derive(Debug, Drop, Error)]
pub enum AllocLinkError {
    /// There was not enough memory.
    #[error("Memory")]
    Memory(AllocError),
    /// A link of that name and role is there (section 2.6.4).
    #[error("DuplicatedLinkName")]
    DuplicatedLinkName,
    /// Each handle that the peer takes is in use (section 2.7.2).
    #[error("HandleMaxReached")]
    HandleMaxReached,
}

impl From<AllocError> for AllocLinkError {
    ghost use Rattle.std.specs.Prelude.{◌≡◌};
    ghost use Rattle.amqp_link_tables.specs.declared.error.AllocLinkError.TheVariants.{Memory};

    ghost from_gives = { λ a e. e ≡ Memory a };

    fn from(error: AllocError) -> Self {
        AllocLinkError::Memory(error)
    }
}
