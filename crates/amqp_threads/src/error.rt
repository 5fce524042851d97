//! Why a call of a desk failed.
use book_history::{HistoryEntry, Receipt};
use std::alloc::AllocError;

/// Why a call of a desk failed.
#[derive(Drop)]
pub enum DeskError {
    /// There was not enough memory.
    Memory(AllocError),
    /// A seat keeps a receipt that does not stand in the history, or not above the one before it.
    Differs {
        /// The receipt.
        receipt: Receipt,
        /// The entry at its place, if the history has one there.
        entry: Option<HistoryEntry>,
    },
}

impl From<AllocError> for DeskError {
    ghost use Rattle.std.specs.Prelude.{◌≡◌};
    ghost use Rattle.amqp_threads.specs.declared.error.DeskError.TheVariants.{Memory};

    ghost from_gives = { λ e r. r ≡ Memory e };

    fn from(error: AllocError) -> DeskError {
        DeskError::Memory(error)
    }
}
