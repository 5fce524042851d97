//! Maps whose keys are all of one kind.
ghost use Rattle.std.specs.Prelude.{◌≡◌, IsTrue, Some, if◌then◌else◌, None};
ghost use Rattle.std.specs.List.{list_all};
ghost use Rattle.amqp_data.specs.View.{view, pairs_view};
ghost use Rattle.amqp_data.specs.Same.{same_pairs};
ghost use Rattle.amqp_data.specs.SameLaws.{pairs_partial_laws, pairs_laws};
ghost use Rattle.amqp_fields.specs.Fields.{Gives, all_keys, key_test, map_with, of_map, is_symbol, is_string, is_annotation};
ghost use Rattle.amqp_fields.specs.Maps.{map_again};

use crate::copy::TryClone;
use crate::error::BaseError;
use crate::field::Field;
use amqp_data::{Entry, OrderedMap, Value};
use std::alloc::{AllocError, Global};
use std::marker::Model;

/// Which keys a map may have.
#[derive(Clone, Copy, Debug, PartialEq, Eq)]
pub enum KeyKind {
    /// Symbols (OASIS AMQP 1.0, part 2, section 2.8.13).
    Symbol,
    /// Texts (part 3, section 3.2.5).
    String,
    /// Symbols and unsigned longs (part 3, section 3.2.10).
    Annotation,
}

impl KeyKind {
    /// Whether a map may have the key.
    pub fn allows(self, key: &Value) -> bool
        ensures { result ≡ key_test self (view key.now) }
    {
        match self {
            KeyKind::Symbol => matches!(key, Value::Symbol(_)),
            KeyKind::String => matches!(key, Value::String(_)),
            KeyKind::Annotation => matches!(key, Value::Symbol(_) | Value::Ulong(_)),
        }
    }
}

fn have_keys(entries: &[Entry], kind: KeyKind) -> bool
    ensures { result ≡ all_keys (key_test kind) (pairs_view entries.now) }
{
    for entry in entries {
        if !kind.allows(&entry.key) {
            return false;
        }
    }
    true
}

fn with_keys(value: Value, kind: KeyKind) -> Result<OrderedMap, BaseError>
    ensures { Gives result (map_with (key_test kind) (view value)) }
{
    let Value::Map(map) = value else {
        return Err(BaseError::Decode);
    };
    if have_keys(map.entries(), kind) {
        Ok(map)
    } else {
        Err(BaseError::Decode)
    }
}

/// A map with symbols as keys: properties, filters and the like (OASIS AMQP 1.0, part 2, section 2.8.13).
#[derive(Debug, Drop)]
pub struct FieldMap {
    map: OrderedMap,
}

impl Model for FieldMap {
    ghost use Rattle.amqp_data.specs.Data.{Pairs};

    ghost Value = { Pairs };

    ghost use Rattle.std.specs.Coded.{codes, code_by};
    ghost use Rattle.std.specs.Prelude.{ℕ, List, []};
    ghost use Rattle.amqp_data.specs.Trees.{Mark, pairs_weight, pairs_marks, pairs_code_back, pairs_at};

    ghost coded = { code_by (ℕ × List Mark) (Prim.hlevel codes) (λ v. (pairs_weight v, pairs_marks v [])) pairs_at pairs_code_back };

    ghost view = { λ a. a.map };

    ghost use Rattle.std.specs.Prelude.{IsTrue};
    ghost use Rattle.amqp_fields.specs.Fields.{all_keys, is_symbol};

    ghost invariant = { λ a. IsTrue (all_keys is_symbol a.map) };
}

impl FieldMap {
    /// The map, where its keys are such: none exactly where one is not.
    pub fn new(map: OrderedMap) -> Option<Self>
        ensures { result ≡ (if all_keys is_symbol map then Some map else None) }
    {
        if have_keys(map.entries(), KeyKind::Symbol) {
            Some(FieldMap { map })
        } else {
            None
        }
    }

    /// The map, lent.
    pub fn as_map(&self) -> &OrderedMap
        ensures value { result.now ≡ self.now }
        ensures keys { IsTrue (all_keys is_symbol self.now) }
    {
        &self.map
    }

    /// The map itself.
    pub fn into_map(self) -> OrderedMap
        ensures { result ≡ self }
    {
        self.map
    }
}

impl TryClone for FieldMap {
    fn try_clone(&self, alloc: Global) -> Result<Self, AllocError> {
        let map = self.map.try_clone(alloc)?;
        Ok(FieldMap { map })
    }
}

/// Two maps are equal where they have the same entries in the same order.
impl PartialEq for FieldMap {
    ghost eq = { same_pairs };

    ghost laws = { pairs_partial_laws };

    fn eq(&self, other: &Self) -> bool {
        self.map == other.map
    }
}

impl Eq for FieldMap {
    ghost laws = { pairs_laws };
}

impl Field for FieldMap {
    ghost reads = { map_with is_symbol };

    ghost writes = { of_map };

    ghost valid = { λ ps. IsTrue (all_keys is_symbol ps) };

    fn from_value(_alloc: Global, value: Value) -> Result<Self, BaseError> {
        let map = with_keys(value, KeyKind::Symbol)?;
        Ok(FieldMap { map })
    }

    fn to_value(&self, alloc: Global) -> Result<Value, BaseError> {
        let map = self.map.try_clone(alloc)?;
        Ok(Value::Map(map))
    }

    ghost again = { map_again is_symbol };

    ghost there = { λ x. tt };
}

/// A map with symbols or unsigned longs as keys (OASIS AMQP 1.0, part 3, section 3.2.10).
#[derive(Debug, Drop)]
pub struct AnnotationMap {
    map: OrderedMap,
}

impl Model for AnnotationMap {
    ghost use Rattle.amqp_data.specs.Data.{Pairs};

    ghost Value = { Pairs };

    ghost use Rattle.std.specs.Coded.{codes, code_by};
    ghost use Rattle.std.specs.Prelude.{ℕ, List, []};
    ghost use Rattle.amqp_data.specs.Trees.{Mark, pairs_weight, pairs_marks, pairs_code_back, pairs_at};

    ghost coded = { code_by (ℕ × List Mark) (Prim.hlevel codes) (λ v. (pairs_weight v, pairs_marks v [])) pairs_at pairs_code_back };

    ghost view = { λ a. a.map };

    ghost use Rattle.std.specs.Prelude.{IsTrue};
    ghost use Rattle.amqp_fields.specs.Fields.{all_keys, is_annotation};

    ghost invariant = { λ a. IsTrue (all_keys is_annotation a.map) };
}

impl AnnotationMap {
    /// The map, where its keys are such: none exactly where one is not.
    pub fn new(map: OrderedMap) -> Option<Self>
        ensures { result ≡ (if all_keys is_annotation map then Some map else None) }
    {
        if have_keys(map.entries(), KeyKind::Annotation) {
            Some(AnnotationMap { map })
        } else {
            None
        }
    }

    /// The map, lent.
    pub fn as_map(&self) -> &OrderedMap
        ensures value { result.now ≡ self.now }
        ensures keys { IsTrue (all_keys is_annotation self.now) }
    {
        &self.map
    }

    /// The map itself.
    pub fn into_map(self) -> OrderedMap
        ensures { result ≡ self }
    {
        self.map
    }
}

impl TryClone for AnnotationMap {
    fn try_clone(&self, alloc: Global) -> Result<Self, AllocError> {
        let map = self.map.try_clone(alloc)?;
        Ok(AnnotationMap { map })
    }
}

/// Two maps are equal where they have the same entries in the same order.
impl PartialEq for AnnotationMap {
    ghost eq = { same_pairs };

    ghost laws = { pairs_partial_laws };

    fn eq(&self, other: &Self) -> bool {
        self.map == other.map
    }
}

impl Eq for AnnotationMap {
    ghost laws = { pairs_laws };
}

impl Field for AnnotationMap {
    ghost reads = { map_with is_annotation };

    ghost writes = { of_map };

    ghost valid = { λ ps. IsTrue (all_keys is_annotation ps) };

    fn from_value(_alloc: Global, value: Value) -> Result<Self, BaseError> {
        let map = with_keys(value, KeyKind::Annotation)?;
        Ok(AnnotationMap { map })
    }

    fn to_value(&self, alloc: Global) -> Result<Value, BaseError> {
        let map = self.map.try_clone(alloc)?;
        Ok(Value::Map(map))
    }

    ghost again = { map_again is_annotation };

    ghost there = { λ x. tt };
}

/// A map with texts as keys (OASIS AMQP 1.0, part 3, section 3.2.5).
#[derive(Debug, Drop)]
pub struct TextMap {
    map: OrderedMap,
}

impl Model for TextMap {
    ghost use Rattle.amqp_data.specs.Data.{Pairs};

    ghost Value = { Pairs };

    ghost use Rattle.std.specs.Coded.{codes, code_by};
    ghost use Rattle.std.specs.Prelude.{ℕ, List, []};
    ghost use Rattle.amqp_data.specs.Trees.{Mark, pairs_weight, pairs_marks, pairs_code_back, pairs_at};

    ghost coded = { code_by (ℕ × List Mark) (Prim.hlevel codes) (λ v. (pairs_weight v, pairs_marks v [])) pairs_at pairs_code_back };

    ghost view = { λ a. a.map };

    ghost use Rattle.std.specs.Prelude.{IsTrue};
    ghost use Rattle.amqp_fields.specs.Fields.{all_keys, is_string};

    ghost invariant = { λ a. IsTrue (all_keys is_string a.map) };
}

impl TextMap {
    /// The map, where its keys are such: none exactly where one is not.
    pub fn new(map: OrderedMap) -> Option<Self>
        ensures { result ≡ (if all_keys is_string map then Some map else None) }
    {
        if have_keys(map.entries(), KeyKind::String) {
            Some(TextMap { map })
        } else {
            None
        }
    }

    /// The map, lent.
    pub fn as_map(&self) -> &OrderedMap
        ensures value { result.now ≡ self.now }
        ensures keys { IsTrue (all_keys is_string self.now) }
    {
        &self.map
    }

    /// The map itself.
    pub fn into_map(self) -> OrderedMap
        ensures { result ≡ self }
    {
        self.map
    }
}

impl TryClone for TextMap {
    fn try_clone(&self, alloc: Global) -> Result<Self, AllocError> {
        let map = self.map.try_clone(alloc)?;
        Ok(TextMap { map })
    }
}

/// Two maps are equal where they have the same entries in the same order.
impl PartialEq for TextMap {
    ghost eq = { same_pairs };

    ghost laws = { pairs_partial_laws };

    fn eq(&self, other: &Self) -> bool {
        self.map == other.map
    }
}

impl Eq for TextMap {
    ghost laws = { pairs_laws };
}

impl Field for TextMap {
    ghost reads = { map_with is_string };

    ghost writes = { of_map };

    ghost valid = { λ ps. IsTrue (all_keys is_string ps) };

    fn from_value(_alloc: Global, value: Value) -> Result<Self, BaseError> {
        let map = with_keys(value, KeyKind::String)?;
        Ok(TextMap { map })
    }

    fn to_value(&self, alloc: Global) -> Result<Value, BaseError> {
        let map = self.map.try_clone(alloc)?;
        Ok(Value::Map(map))
    }

    ghost again = { map_again is_string };

    ghost there = { λ x. tt };
}
