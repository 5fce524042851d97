//! What the argument of one key says.
ghost use Rattle.std.specs.Prelude.{◌≡◌, ◌-◌, ◌^◌, Some, None, IfOk, OnErr};
ghost use Rattle.std.specs.List.{list_all};
ghost use Rattle.amqp_script.specs.Keys.{name_of, value_at as value_of};
ghost use Rattle.amqp_script.specs.Words.{words_left};
ghost use Rattle.amqp_script.specs.Number.{number_in};
ghost use Rattle.amqp_script.specs.Fields.{Says, is_ascii as ascii_test, text_in, symbol_in, salt_in, optional_in};

use crate::script::escape::unescape;
use crate::script::keys::{Key, value_at};
use crate::script::line_error::LineError;
use crate::script::number::number;
use crate::script::words::Words;
use amqp_text::symbol::SymbolError;
use amqp_text::text::TextError;
use amqp_text::{Binary, Symbol, Text};
use base64::DecodeAllocError;
use base64::engine::general_purpose::STANDARD;
use std::alloc::{AllocError, Global};

/// A text with escapes.
pub fn text(alloc: Global, argument: &[u8]) -> Result<Text, LineError>
    ensures { Says (text_in argument.now) result }
{
    let bytes = unescape(alloc, argument)?;
    match Text::from_utf8(alloc, bytes.as_slice()) {
        Ok(text) => Ok(text),
        Err(TextError::NotUtf8) => Err(LineError::Outside),
        Err(TextError::Memory(error)) => Err(LineError::Memory(error)),
    }
}

fn is_ascii(text: &[u8]) -> bool
    ensures { result ≡ list_all ascii_test text.now }
{
    text.iter().all(|byte| *byte < 0x80)
}

/// A symbol with escapes.
pub fn symbol(alloc: Global, argument: &[u8]) -> Result<Symbol, LineError>
    ensures { Says (symbol_in argument.now) result }
{
    let text = text(alloc, argument)?;
    if !is_ascii(text.as_bytes()) {
        return Err(LineError::Outside);
    }
    match Symbol::from_slice(alloc, text.as_bytes()) {
        Ok(symbol) => Ok(symbol),
        Err(SymbolError::NotAscii) => Err(LineError::Outside),
        Err(SymbolError::Memory(error)) => Err(LineError::Memory(error)),
    }
}

/// A salt in base64.
pub fn salt(alloc: Global, argument: &[u8]) -> Result<Binary, LineError>
    ensures { Says (salt_in argument.now) result }
{
    match STANDARD.decode(alloc, argument) {
        Ok(bytes) => {
            let salt = Binary::from_slice(alloc, bytes.as_slice())?;
            Ok(salt)
        }
        Err(DecodeAllocError::DecodeError(_)) => Err(LineError::Outside),
        Err(DecodeAllocError::OutOfMemory) => Err(LineError::Memory(AllocError)),
    }
}

/// A number below 2^32.
pub fn uint(argument: &[u8]) -> Result<u32, LineError>
    ensures { Says (number_in (2 ^ 32 - 1) argument.now) result }
{
    match number(u32::MAX as u64, argument) {
        Some(number) => Ok(number as u32),
        None => Err(LineError::Outside),
    }
}

/// A number below 2^16.
pub fn ushort(argument: &[u8]) -> Result<u16, LineError>
    ensures { Says (number_in (2 ^ 16 - 1) argument.now) result }
{
    match number(u16::MAX as u64, argument) {
        Some(number) => Ok(number as u16),
        None => Err(LineError::Outside),
    }
}

/// The value of a key, which has to be there.
pub fn required<'a>(arguments: Words<'a>, key: Key) -> Result<&'a [u8], LineError>
    ensures ok { IfOk result (λ v. value_of (name_of key) (words_left arguments.entry) ≡ Some v.now) }
    ensures outside { OnErr result (value_of (name_of key) (words_left arguments.entry) ≡ None) }
{
    match value_at(arguments, key.name()) {
        Some(value) => Ok(value),
        None => Err(LineError::Outside),
    }
}

/// The text of a key that may be left out.
pub fn optional_text(
    alloc: Global,
    arguments: Words<'_>,
    key: Key,
) -> Result<Option<Text>, LineError>
    ensures { Says (optional_in text_in key (words_left arguments.entry)) result }
{
    match value_at(arguments, key.name()) {
        Some(value) => {
            let text = text(alloc, value)?;
            Ok(Some(text))
        }
        None => Ok(None),
    }
}

/// The symbol of a key that may be left out.
pub fn optional_symbol(
    alloc: Global,
    arguments: Words<'_>,
    key: Key,
) -> Result<Option<Symbol>, LineError>
    ensures { Says (optional_in symbol_in key (words_left arguments.entry)) result }
{
    match value_at(arguments, key.name()) {
        Some(value) => {
            let symbol = symbol(alloc, value)?;
            Ok(Some(symbol))
        }
        None => Ok(None),
    }
}
