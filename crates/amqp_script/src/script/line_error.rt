//! Why a line says no step.
ghost use Rattle.std.specs.Prelude.{◌≡◌};
ghost use Rattle.amqp_script.specs.declared.script.line_error.LineError.TheVariants.{Memory};

use std::alloc::{AllocError, AllocFailed};

/// Why a line says no step.
#[derive(Clone, Copy, Debug, PartialEq, Eq)]
pub enum LineError {
    /// There was not enough memory.
    Memory(AllocError),
    /// It is outside the grammar.
    Outside,
}

impl From<AllocError> for LineError {
    ghost from_gives = { λ a e. e ≡ Memory a };

    fn from(error: AllocError) -> Self {
        LineError::Memory(error)
    }
}

impl<T: Drop> From<AllocFailed<T>> for LineError {
    ghost use Rattle.std.specs.Prelude.{alloc_error};

    ghost from_gives = { λ _ e. e ≡ Memory alloc_error };

    fn from(error: AllocFailed<T>) -> Self {
        LineError::Memory(AllocError::from(error))
    }
}
