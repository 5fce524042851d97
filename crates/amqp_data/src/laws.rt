//! Equality tells exactly whether two are the same.
ghost use Rattle.std.specs.Prelude.{◌≡◌, ◌↔◌, IsTrue};
ghost use Rattle.amqp_data.specs.Data.{Items, Pairs};
ghost use Rattle.amqp_data.specs.declared.value.Value.{Value};

use crate::value::{OrderedMap, Value, ValueList};

/// Two values, lists of values and maps are equal exactly where they are the same.
pub fn equal_is_the_same()
    ensures values { (x y : Value) → IsTrue (⟦<Value as PartialEq>⟧.eq x y) ↔ (x ≡ y) }
    ensures lists { (x y : Items) → IsTrue (⟦<ValueList as PartialEq>⟧.eq x y) ↔ (x ≡ y) }
    ensures maps { (x y : Pairs) → IsTrue (⟦<OrderedMap as PartialEq>⟧.eq x y) ↔ (x ≡ y) }
{}
