//! Reading a value from the front of its bytes (OASIS AMQP 1.0, part 1, sections 1.2 and 1.6).
ghost use Rattle.std.specs.Prelude.{◌≡◌, ◌≤◌, ◌++◌, ℕ, List, length, take, IfOk, IfErr, Err};
ghost use Rattle.amqp_data.specs.Data.{Amqp, Items, depth, items_depth};
ghost use Rattle.amqp_data.specs.View.{view, items_view};
ghost use Rattle.amqp_value.specs.Grammar.{Spells, SpellAll};
ghost use Rattle.amqp_value.specs.ReadErrors.{IsReadError};

use crate::error::ValueError;
use amqp_data::{Value, ValueList};
use compounds::read_nested;
use std::alloc::Global;

mod blocks;
mod compounds;
mod scalars;

/// How deep a value that is read may be nested.
const MAX_DEPTH: u8 = 32;

/// The value that begins the input, and how many bytes it takes.
pub fn read_value(alloc: Global, input: &[u8]) -> Result<(Value, usize), ValueError>
    // What is read is spelled so, by as many bytes as are said.
    ensures within { IfOk result (λ x. x.1 ≤ length input.now) }
    ensures found { IfOk result (λ x. Spells (take x.1 input.now) (view x.0)) }
    ensures nests { IfOk result (λ x. depth (view x.0) ≤ 32) }

    // A value whose spelling begins the input is the one that is read, and its whole spelling is taken.
    ensures only { (text rest : List ℕ) (v : Amqp) → input.now ≡ text ++ rest → Spells text v → depth v ≤ 32
        → IfOk result (λ x. (view x.0 ≡ v) × (x.1 ≡ length text)) }

    // It is refused only where no spelling begins the input.
    ensures refused { IfErr result IsReadError }
    ensures none { result ≡ Err ValueError.Decode → (text rest : List ℕ) (v : Amqp) → input.now ≡ text ++ rest → Spells text v → depth v ≤ 32 → ⊥ }
{
    read_value_within(alloc, input, MAX_DEPTH)
}

/// The value that begins the input, nested at most so many levels deep, and how many bytes it takes.
pub fn read_value_within(
    alloc: Global,
    input: &[u8],
    levels: u8,
) -> Result<(Value, usize), ValueError>
    // What is read is spelled so, by as many bytes as are said.
    ensures within { IfOk result (λ x. x.1 ≤ length input.now) }
    ensures found { IfOk result (λ x. Spells (take x.1 input.now) (view x.0)) }
    ensures nests { IfOk result (λ x. depth (view x.0) ≤ levels) }

    // A value whose spelling begins the input is the one that is read, and its whole spelling is taken.
    ensures only { (text rest : List ℕ) (v : Amqp) → input.now ≡ text ++ rest → Spells text v → depth v ≤ levels
        → IfOk result (λ x. (view x.0 ≡ v) × (x.1 ≡ length text)) }

    // It is refused only where no spelling begins the input.
    ensures refused { IfErr result IsReadError }
    ensures none { result ≡ Err ValueError.Decode → (text rest : List ℕ) (v : Amqp) → input.now ≡ text ++ rest → Spells text v → depth v ≤ levels → ⊥ }
{
    let (found, rest) = read_nested(alloc, input, levels)?;
    let used = input.len() - rest.len();
    Ok((found, used))
}

/// The values that fill the input, each nested at most so many levels deep.
pub fn read_values(alloc: Global, input: &[u8], levels: u8) -> Result<ValueList, ValueError>
    // What is read is spelled by the whole input.
    ensures spelled { IfOk result (λ x. SpellAll input.now x) }
    ensures nests { IfOk result (λ x. items_depth x ≤ levels) }

    // Values that the whole input spells are the ones that are read.
    ensures only { (vs : Items) → SpellAll input.now vs → items_depth vs ≤ levels → IfOk result (λ x. x ≡ vs) }

    // It is refused only where the whole input spells no values.
    ensures refused { IfErr result IsReadError }
    ensures none { result ≡ Err ValueError.Decode → (vs : Items) → SpellAll input.now vs → items_depth vs ≤ levels → ⊥ }
{
    let mut values = Vec::new(alloc);
    let mut rest = input;
    while !rest.is_empty() {
        let (found, after) = read_nested(alloc, rest, levels)?;
        values.push(found)?;
        rest = after;
    }
    Ok(ValueList::from_vec(values))
}
