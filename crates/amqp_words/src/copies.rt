//! Copies of texts and errors. The one error of each is want of memory.
ghost use Rattle.std.specs.Prelude.{◌≡◌, IfOk};

use amqp_composites::error::Error as AmqpError;
use amqp_fields::FieldMap;
use amqp_text::symbol::SymbolError;
use amqp_text::{Symbol, Text};
use std::alloc::{AllocError, Global};

/// A copy of a symbol.
pub fn copied_symbol(alloc: Global, symbol: &Symbol) -> Result<Symbol, AllocError>
    ensures { IfOk result (λ s. s ≡ symbol.now) }
{
    match Symbol::from_slice(alloc, symbol.as_slice()) {
        Ok(copy) => Ok(copy),
        Err(SymbolError::Memory(error)) => Err(error),
        Err(SymbolError::NotAscii) => unreachable!(),
    }
}

/// A copy of a text, if there is one.
pub fn copied_text(alloc: Global, text: &Option<Text>) -> Result<Option<Text>, AllocError>
    ensures { IfOk result (λ t. t ≡ text.now) }
{
    match text {
        Some(text) => {
            let text = text.try_clone(alloc)?;
            Ok(Some(text))
        }
        None => Ok(None),
    }
}

fn copied_info(alloc: Global, info: &Option<FieldMap>) -> Result<Option<FieldMap>, AllocError>
    ensures { IfOk result (λ i. i ≡ info.now) }
{
    match info {
        Some(info) => match FieldMap::new(info.as_map().try_clone(alloc)?) {
            Some(copy) => Ok(Some(copy)),
            None => unreachable!(),
        },
        None => Ok(None),
    }
}

/// A copy of an error of AMQP.
pub fn copied_error(alloc: Global, error: &AmqpError) -> Result<AmqpError, AllocError>
    ensures { IfOk result (λ e. e ≡ error.now) }
{
    let condition = copied_symbol(alloc, &error.condition)?;
    let description = copied_text(alloc, &error.description)?;
    let info = copied_info(alloc, &error.info)?;
    Ok(AmqpError {
        condition,
        description,
        info,
    })
}
