//! AMQP values: texts, symbols, binaries and lists of them (OASIS AMQP 1.0, part 1).
#![tactic(auto)]

pub use binary::Binary;
pub use symbol::{Symbol, SymbolError, SymbolList};
pub use text::{Text, TextError};

pub mod binary;
mod compared;
pub mod laws;
pub mod symbol;
pub mod text;
