//! How a SASL dialog ends (OASIS AMQP 1.0, part 5, section 5.3.3.6).
ghost use Rattle.std.specs.Prelude.{◌≡◌};
ghost use Rattle.amqp_sasl_bodies.specs.SaslCode.{sasl_code_number, sasl_code_in, of_sasl_code, sasl_code_again};

use amqp_described::amqp_data::Value;
use amqp_described::amqp_fields::{BaseError, Field};
use std::alloc::Global;

/// How a SASL dialog ends.
#[derive(Clone, Copy, Debug, PartialEq, Eq)]
pub enum SaslCode {
    /// The client is who it says.
    Ok,
    /// It isn't, or can't show it.
    Auth,
    /// The system failed.
    Sys,
    /// The system failed and will again.
    SysPerm,
    /// The system failed and may not again.
    SysTemp,
}

impl SaslCode {
    /// The number of the code.
    pub fn number(self) -> u8
        ensures { result ≡ sasl_code_number self }
    {
        match self {
            SaslCode::Ok => 0,
            SaslCode::Auth => 1,
            SaslCode::Sys => 2,
            SaslCode::SysPerm => 3,
            SaslCode::SysTemp => 4,
        }
    }
}

impl Field for SaslCode {
    ghost reads = { sasl_code_in };

    ghost writes = { of_sasl_code };

    ghost valid = { λ _. Unit {0} };

    fn from_value(_alloc: Global, value: Value) -> Result<Self, BaseError> {
        match value {
            Value::Ubyte(0) => Ok(SaslCode::Ok),
            Value::Ubyte(1) => Ok(SaslCode::Auth),
            Value::Ubyte(2) => Ok(SaslCode::Sys),
            Value::Ubyte(3) => Ok(SaslCode::SysPerm),
            Value::Ubyte(4) => Ok(SaslCode::SysTemp),
            _ => Err(BaseError::Decode),
        }
    }

    fn to_value(&self, _alloc: Global) -> Result<Value, BaseError> {
        Ok(Value::Ubyte(self.number()))
    }

    ghost again = { sasl_code_again };

    ghost there = { λ x. tt };
}
