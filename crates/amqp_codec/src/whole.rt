//! Bytes that are one value exactly (OASIS AMQP 1.0, part 1, section 1.2).
ghost use Rattle.std.specs.Prelude.{◌≡◌, ◌≤◌, ◌++◌, List, Ok, Err, IfOk, IfErr, ℕ};
ghost use Rattle.amqp_data.specs.Data.{Amqp, depth};
ghost use Rattle.amqp_data.specs.View.{view};
ghost use Rattle.amqp_value.specs.Grammar.{Spells};
ghost use Rattle.amqp_codec.specs.Whole.{IsWholeError};

use amqp_data::Value;
use amqp_value::{ValueError, read_value};
use std::alloc::Global;
use thiserror::Error;

/// Why bytes are not one value exactly.
#[derive(Clone, Copy, Debug, PartialEq, Eq, Error)]
pub enum WholeValueError {
    /// The reader's own error.
    #[error("Value.{0}")]
    Value(ValueError),
    /// So many bytes are left over behind a value.
    #[error("Left {0}")]
    Left(usize),
}

/// The value that the whole input spells, nested at most 32 deep.
pub fn read_whole_value(alloc: Global, input: &[u8]) -> Result<Value, WholeValueError>
    // The whole input spells what is read.
    ensures found { IfOk result (λ x. Spells input.now (view x)) }
    ensures nests { IfOk result (λ x. depth (view x) ≤ 32) }

    // What the whole input spells is what is read.
    ensures only { (v : Amqp) → Spells input.now v → depth v ≤ 32 → IfOk result (λ x. view x ≡ v) }

    // `Decode` where no spelling begins the input, `Left` where one does and so many bytes follow it.
    ensures refused { IfErr result (IsWholeError input.now) }
    ensures none { result ≡ Err (WholeValueError.Value ValueError.Decode) → (text rest : List ℕ) (v : Amqp) → input.now ≡ text ++ rest → Spells text v → depth v ≤ 32 → ⊥ }
    ensures left { (n : ℕ) → result ≡ Err (WholeValueError.Left n) → (v : Amqp) → Spells input.now v → depth v ≤ 32 → ⊥ }
{
    match read_value(alloc, input) {
        Ok((value, used)) => {
            let left = input.len() - used;
            if left == 0 {
                Ok(value)
            } else {
                Err(WholeValueError::Left(left))
            }
        }
        Err(error) => Err(WholeValueError::Value(error)),
    }
}
