//! The default of expiry policies (OASIS AMQP 1.0, part 3, section 3.5.6).
ghost use Rattle.std.specs.Prelude.{◌≡◌, codes, Some};
ghost use Rattle.amqp_composites.specs.amqp_fields.Fields.{Gives};

use amqp_composites::amqp_data::Symbol;
use amqp_composites::amqp_fields::BaseError;
use amqp_text::symbol::SymbolError;
use std::alloc::Global;

/// `session-end`; the one error is want of memory.
pub(crate) fn session_end(alloc: Global) -> Result<Symbol, BaseError>
    ensures { Gives result (Some (codes "session-end")) }
{
    match Symbol::from_slice(alloc, b"session-end") {
        Ok(symbol) => Ok(symbol),
        Err(SymbolError::Memory(error)) => Err(BaseError::Memory(error)),
        Err(SymbolError::NotAscii) => Err(BaseError::Decode),
    }
}
