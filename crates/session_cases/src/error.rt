//! Why a case comes to nothing.
use amqp_fields::BaseError;
use amqp_session::BeginError;
use case_files::NotationError;
use std::alloc::AllocError;

/// Why a case comes to nothing.
#[derive(Clone, Copy, Debug, PartialEq, Eq)]
pub enum CaseError {
    /// There was not enough memory.
    Memory(AllocError),
    /// The case is not written as cases are.
    Malformed,
}

impl From<AllocError> for CaseError {
    fn from(error: AllocError) -> Self {
        CaseError::Memory(error)
    }
}

impl From<NotationError> for CaseError {
    fn from(error: NotationError) -> Self {
        match error {
            NotationError::Memory(error) => CaseError::Memory(error),
            NotationError::BadWord => CaseError::Malformed,
        }
    }
}

impl From<BaseError> for CaseError {
    fn from(error: BaseError) -> Self {
        match error {
            BaseError::Memory(error) => CaseError::Memory(error),
            _ => CaseError::Malformed,
        }
    }
}

impl From<BeginError> for CaseError {
    fn from(error: BeginError) -> Self {
        drop(error);
        CaseError::Memory(AllocError)
    }
}
