//! Why a call of a ticket desk failed.
use std::alloc::AllocError;

/// Why a call of a ticket desk failed.
#[derive(Clone, Copy, Debug, PartialEq, Eq)]
pub enum TicketError {
    /// There was not enough memory; no entry was made.
    Memory(AllocError),
    /// The desk has no ticket left: the next one is not below the number of calls that it allows.
    Full {
        /// The next ticket.
        ticket: u64,
    },
}

impl From<AllocError> for TicketError {
    ghost use Rattle.std.specs.Prelude.{◌≡◌};
    ghost use Rattle.book_lock.specs.declared.error.TicketError.TheVariants.{Memory};

    ghost from_gives = { λ e r. r ≡ Memory e };

    fn from(error: AllocError) -> TicketError {
        TicketError::Memory(error)
    }
}
