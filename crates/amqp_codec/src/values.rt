//! Values that are made of what Rust has (OASIS AMQP 1.0, part 1, section 1.6).
ghost use Rattle.std.specs.Prelude.{◌≡◌, ◌<◌, All, IfOk, IsErrOf};
ghost use Rattle.amqp_data.specs.declared.value.Value.TheVariants as v;
ghost use Rattle.amqp_text.specs.declared.symbol.SymbolError.{SymbolError};

use amqp_data::{Binary, Symbol, Text, Value};
use amqp_text::SymbolError;
use std::alloc::{AllocError, Global};

/// The value that is this text, a string (section 1.6.20). The one error is want of memory.
pub fn text_value(alloc: Global, text: &str) -> Result<Value, AllocError>
    ensures { IfOk result (λ value. value ≡ v.String text.now) }
{
    let text = Text::from_str(alloc, text)?;
    Ok(Value::String(text))
}

/// The value that is this text, a symbol (section 1.6.21): `NotAscii` exactly where a character is no ASCII.
pub fn symbol_value(alloc: Global, text: &str) -> Result<Value, SymbolError>
    ensures ok { IfOk result (λ value. value ≡ v.Symbol text.now) }
    ensures ascii { IfOk result (λ _. All (λ b. b < 128) text.now) }
    ensures refused { IsErrOf result SymbolError.NotAscii → All (λ b. b < 128) text.now → ⊥ }
{
    let symbol = Symbol::from_str(alloc, text)?;
    Ok(Value::Symbol(symbol))
}

/// The value that is these bytes, a binary (section 1.6.19). The one error is want of memory.
pub fn bytes_value(alloc: Global, bytes: &[u8]) -> Result<Value, AllocError>
    ensures { IfOk result (λ value. value ≡ v.Binary bytes.now) }
{
    let bytes = Binary::from_slice(alloc, bytes)?;
    Ok(Value::Binary(bytes))
}
