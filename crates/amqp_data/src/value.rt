//! The types of values (OASIS AMQP 1.0, part 1, sections 1.1 and 1.6), and what contracts see of each.
use crate::kind::ElementKind;
use amqp_text::{Binary, Symbol, Text};
use std::marker::Model;

/// A point in time, in milliseconds since 1970-01-01 00:00 UTC (section 1.6.17).
#[derive(Clone, Copy, Debug, PartialEq, Eq)]
pub struct Timestamp {
    /// Negative before that date.
    pub milliseconds: i64,
}

/// A universally unique identifier, in the order of RFC 4122 (section 1.6.18).
#[derive(Clone, Copy, Debug, PartialEq, Eq)]
pub struct Uuid {
    /// The 16 octets, the first one first.
    pub bytes: [u8; 16],
}

/// Values in order (section 1.6.22).
#[cycle(value)]
#[derive(Debug)]
pub struct ValueList {
    pub(crate) values: Vec<Value>,
}

// Let go by a call, so that no caller sees where the values lie.
impl Drop for ValueList {
    #[cycle(value)]
    fn drop(self) {
        let ValueList { values } = self;
        drop(values);
    }
}

impl ValueList {
    ghost use Rattle.std.specs.Prelude.{◌≡◌};
    ghost use Rattle.amqp_data.specs.View.{items_view};

    /// The values themselves.
    pub fn into_vec(self) -> Vec<Value>
        ensures { items_view result.items ≡ self }
    {
        let ValueList { values } = self;
        values
    }
}

/// Keys with their values, in the order of insertion; no key comes twice (section 1.6.23).
#[cycle(value)]
#[derive(Debug)]
pub struct OrderedMap {
    pub(crate) entries: Vec<Entry>,
}

// Let go by a call, so that no caller sees where the values lie.
impl Drop for OrderedMap {
    #[cycle(value)]
    fn drop(self) {
        let OrderedMap { entries } = self;
        drop(entries);
    }
}

impl OrderedMap {
    ghost use Rattle.std.specs.Prelude.{◌≡◌};
    ghost use Rattle.amqp_data.specs.Data.{HasDistinctKeys};
    ghost use Rattle.amqp_data.specs.View.{pairs_view};

    /// The entries themselves.
    pub fn into_entries(self) -> Vec<Entry>
        ensures value { pairs_view result.items ≡ self }
        ensures distinct { HasDistinctKeys self }
    {
        let OrderedMap { entries } = self;
        entries
    }
}

/// A key and its value.
#[cycle(value)]
#[derive(Debug, Drop)]
pub struct Entry {
    /// The key, of any kind.
    pub key: Value,
    /// The value at the key.
    pub value: Value,
}

/// Values of one kind (section 1.6.24).
#[cycle(value)]
#[derive(Debug)]
pub struct ValueArray {
    pub(crate) kind: ElementKind,
    pub(crate) values: Vec<Value>,
}

// Let go by a call, so that no caller sees where the values lie.
impl Drop for ValueArray {
    #[cycle(value)]
    fn drop(self) {
        let ValueArray { kind: _, values } = self;
        drop(values);
    }
}

impl ValueArray {
    ghost use Rattle.std.specs.Prelude.{◌≡◌};
    ghost use Rattle.amqp_data.specs.View.{items_view};

    /// The values themselves.
    pub fn into_vec(self) -> Vec<Value>
        ensures { items_view result.items ≡ self.1 }
    {
        let ValueArray { kind: _, values } = self;
        values
    }
}

/// A value with a descriptor (section 1.1.2).
#[cycle(value)]
#[derive(Debug)]
pub struct Described {
    pub(crate) parts: Box<DescribedParts>,
}

// Let go by a call, so that no caller sees where the values lie.
impl Drop for Described {
    #[cycle(value)]
    fn drop(self) {
        let Described { parts } = self;
        drop(parts);
    }
}

impl Described {
    ghost use Rattle.std.specs.Prelude.{◌≡◌};
    ghost use Rattle.amqp_data.specs.View.{view};

    /// The descriptor and the value.
    pub fn into_parts(self) -> (Value, Value)
        ensures descriptor { view result.0 ≡ self.0 }
        ensures value { view result.1 ≡ self.1 }
    {
        let Described { parts } = self;
        let DescribedParts { descriptor, value } = Box::into_inner(parts);
        (descriptor, value)
    }
}

/// A descriptor and the value behind it, in one place of memory.
#[cycle(value)]
#[derive(Debug, Drop)]
pub(crate) struct DescribedParts {
    pub(crate) descriptor: Value,
    pub(crate) value: Value,
}

/// An AMQP value of any kind but float, double and the three decimals (sections 1.6.11 to 1.6.15), which are not supported.
#[cycle(value)]
#[derive(Debug, Drop)]
pub enum Value {
    /// No value (section 1.6.1).
    Null,
    /// True or false (section 1.6.2).
    Bool(bool),
    /// A whole number from 0 up to 2^8 - 1 (section 1.6.3).
    Ubyte(u8),
    /// A whole number from 0 up to 2^16 - 1 (section 1.6.4).
    Ushort(u16),
    /// A whole number from 0 up to 2^32 - 1 (section 1.6.5).
    Uint(u32),
    /// A whole number from 0 up to 2^64 - 1 (section 1.6.6).
    Ulong(u64),
    /// A whole number from -2^7 up to 2^7 - 1 (section 1.6.7).
    Byte(i8),
    /// A whole number from -2^15 up to 2^15 - 1 (section 1.6.8).
    Short(i16),
    /// A whole number from -2^31 up to 2^31 - 1 (section 1.6.9).
    Int(i32),
    /// A whole number from -2^63 up to 2^63 - 1 (section 1.6.10).
    Long(i64),
    /// A Unicode character (section 1.6.16).
    Char(char),
    /// A point in time, in milliseconds (section 1.6.17).
    Timestamp(Timestamp),
    /// A universally unique identifier (section 1.6.18).
    Uuid(Uuid),
    /// A sequence of octets (section 1.6.19).
    Binary(Binary),
    /// A text in UTF-8 (section 1.6.20).
    String(Text),
    /// A symbol in ASCII (section 1.6.21).
    Symbol(Symbol),
    /// Values in order, of any kinds (section 1.6.22).
    List(ValueList),
    /// Keys with their values, in order (section 1.6.23).
    Map(OrderedMap),
    /// Values in order, of one kind (section 1.6.24).
    Array(ValueArray),
    /// A value with a descriptor (section 1.1.2).
    Described(Described),
}

impl Model for ValueList {
    ghost use Rattle.amqp_data.specs.Data.{Items};

    ghost Value = { Items };

    ghost use Rattle.std.specs.Coded.{codes, code_by};
    ghost use Rattle.std.specs.Prelude.{ℕ, List, []};
    ghost use Rattle.amqp_data.specs.Trees.{Mark, items_weight, items_marks, items_code_back, items_at};

    ghost coded = { code_by (ℕ × List Mark) (Prim.hlevel codes) (λ v. (items_weight v, items_marks v [])) items_at items_code_back };

    ghost use Rattle.amqp_data.specs.View.{items_view};

    ghost view = { λ a. items_view a.values.items };

    ghost size = { items_weight };

    ghost use Rattle.std.proofs.Common.{arith};
    ghost use Rattle.amqp_data.specs.Falls.{items_fall};

    ghost size_decreases = { λ a h. Prim.omega (arith, items_fall a.values.items) };
}

impl Model for OrderedMap {
    ghost use Rattle.amqp_data.specs.Data.{Pairs};

    ghost Value = { Pairs };

    ghost use Rattle.std.specs.Coded.{codes, code_by};
    ghost use Rattle.std.specs.Prelude.{ℕ, List, []};
    ghost use Rattle.amqp_data.specs.Trees.{Mark, pairs_weight, pairs_marks, pairs_code_back, pairs_at};

    ghost coded = { code_by (ℕ × List Mark) (Prim.hlevel codes) (λ v. (pairs_weight v, pairs_marks v [])) pairs_at pairs_code_back };

    ghost use Rattle.amqp_data.specs.Data.{HasDistinctKeys};
    ghost use Rattle.amqp_data.specs.View.{pairs_view};

    ghost view = { λ a. pairs_view a.entries.items };

    ghost invariant = { λ a. HasDistinctKeys (pairs_view a.entries.items) };

    ghost size = { pairs_weight };

    ghost use Rattle.std.proofs.Common.{arith};
    ghost use Rattle.amqp_data.specs.Falls.{pairs_fall};

    ghost size_decreases = { λ a h. Prim.omega (arith, pairs_fall a.entries.items) };
}

impl Model for Described {
    ghost use Rattle.amqp_data.specs.Data.{Amqp};

    ghost Value = { Amqp × Amqp };

    ghost use Rattle.std.specs.Coded.{codes, code_by};
    ghost use Rattle.std.specs.Prelude.{ℕ, List, [], ◌+◌};
    ghost use Rattle.amqp_data.specs.Trees.{Mark, weight, marks, parts_code_back, parts_at};

    ghost coded = { code_by (ℕ × List Mark) (Prim.hlevel codes) (λ d. (weight d.0 + weight d.1, marks d.0 (marks d.1 []))) parts_at parts_code_back };

    ghost use Rattle.amqp_data.specs.View.{view as view_of};

    ghost view = { λ a. (view_of a.parts.value.descriptor, view_of a.parts.value.value) };

    ghost size = { λ d. weight d.0 + weight d.1 };
}

impl Model for ValueArray {
    ghost use Rattle.amqp_data.specs.Data.{Items};
    ghost use Rattle.amqp_data.specs.declared.kind.ElementKind.{ElementKind};

    ghost Value = { ElementKind × Items };

    ghost use Rattle.std.specs.Coded.{codes, code_by};
    ghost use Rattle.std.specs.Prelude.{ℕ, List, [], ◌∷◌, suc};
    ghost use Rattle.amqp_data.specs.Trees.{Mark, a_array, items_weight, items_marks, array_code_back, array_at};

    ghost coded = { code_by (ℕ × List Mark) (Prim.hlevel codes) (λ a. (suc (items_weight a.1), a_array a.0 ∷ items_marks a.1 [])) array_at array_code_back };

    ghost use Rattle.amqp_data.specs.View.{items_view};

    ghost view = { λ a. (a.kind, items_view a.values.items) };

    ghost use Rattle.amqp_data.specs.Data.{AreOfKind};

    ghost invariant = { λ a. AreOfKind a.kind (items_view a.values.items) };

    ghost size = { λ a. items_weight a.1 };

    ghost use Rattle.std.proofs.Common.{arith};
    ghost use Rattle.amqp_data.specs.Falls.{items_fall};

    ghost size_decreases = { λ a h. Prim.omega (arith, items_fall a.values.items) };
}
