//! Equality tells exactly whether two are the same.
ghost use Rattle.std.specs.Prelude.{◌≡◌, ◌↔◌, IsTrue};
ghost use Rattle.amqp_data.specs.Data.{Pairs};

use crate::map::{AnnotationMap, FieldMap, TextMap};

/// Two maps are equal exactly where they are the same.
pub fn equal_is_the_same()
    ensures fields { (x y : Pairs) → IsTrue (⟦<FieldMap as PartialEq>⟧.eq x y) ↔ (x ≡ y) }
    ensures annotations { (x y : Pairs) → IsTrue (⟦<AnnotationMap as PartialEq>⟧.eq x y) ↔ (x ≡ y) }
    ensures texts { (x y : Pairs) → IsTrue (⟦<TextMap as PartialEq>⟧.eq x y) ↔ (x ≡ y) }
{}
