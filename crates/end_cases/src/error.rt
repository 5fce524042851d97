//! Why a case comes to nothing.
ghost use Rattle.std.specs.Prelude.{◌≡◌};
ghost use Rattle.end_cases.specs.declared.error.CaseError.TheVariants.{Memory};

use amqp_end::EndError;
use case_files::NotationError;
use std::alloc::AllocError;

/// Why a case comes to nothing.
#[derive(Clone, Copy, Debug, PartialEq, Eq)]
pub enum CaseError {
    /// There was not enough memory.
    Memory(AllocError),
    /// The case is not written as cases are, or asks for what the end may not be asked for.
    Malformed,
}

impl From<AllocError> for CaseError {
    ghost from_gives = { λ a e. e ≡ Memory a };

    fn from(error: AllocError) -> Self {
        CaseError::Memory(error)
    }
}

impl From<NotationError> for CaseError {
    fn from(error: NotationError) -> Self {
        match error {
            NotationError::Memory(error) => CaseError::Memory(error),
            NotationError::BadWord => CaseError::Malformed,
        }
    }
}

impl From<EndError> for CaseError {
    fn from(error: EndError) -> Self {
        match error {
            EndError::Memory(error) => CaseError::Memory(error),
            EndError::Failed => CaseError::Malformed,
        }
    }
}
