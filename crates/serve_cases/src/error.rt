//! Why a case comes to nothing.
ghost use Rattle.std.specs.Prelude.{◌≡◌};
ghost use Rattle.serve_cases.specs.declared.error.CaseError.TheVariants.{Memory};

use case_files::NotationError;
use std::alloc::AllocError;

/// Why a case comes to nothing.
#[derive(Clone, Copy, Debug, PartialEq, Eq)]
pub enum CaseError {
    /// There was not enough memory.
    Memory(AllocError),
    /// The case is not written as cases are.
    Malformed,
}

impl From<AllocError> for CaseError {
    ghost from_gives = { λ a e. e ≡ Memory a };

    fn from(error: AllocError) -> Self {
        CaseError::Memory(error)
    }
}

impl From<NotationError> for CaseError {
    fn from(error: NotationError) -> Self {
        match error {
            NotationError::Memory(error) => CaseError::Memory(error),
            NotationError::BadWord => CaseError::Malformed,
        }
    }
}
