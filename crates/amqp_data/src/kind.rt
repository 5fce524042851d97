//! The kinds that an array's elements can have here: the scalar kinds (OASIS AMQP 1.0, part 1, section 1.6.24).
//! Arrays of null, of floats and of compound values are not supported.

ghost use Rattle.std.specs.Prelude.{◌≡◌};
ghost use Rattle.amqp_data.specs.Same.{kind_number, same_kind};

/// The kind of all elements of an array.
#[derive(Clone, Copy, Debug, PartialEq, Eq)]
pub enum ElementKind {
    /// True or false (section 1.6.2).
    Bool,
    /// Whole numbers from 0 up to 2^8 - 1 (section 1.6.3).
    Ubyte,
    /// Whole numbers from 0 up to 2^16 - 1 (section 1.6.4).
    Ushort,
    /// Whole numbers from 0 up to 2^32 - 1 (section 1.6.5).
    Uint,
    /// Whole numbers from 0 up to 2^64 - 1 (section 1.6.6).
    Ulong,
    /// Whole numbers from -2^7 up to 2^7 - 1 (section 1.6.7).
    Byte,
    /// Whole numbers from -2^15 up to 2^15 - 1 (section 1.6.8).
    Short,
    /// Whole numbers from -2^31 up to 2^31 - 1 (section 1.6.9).
    Int,
    /// Whole numbers from -2^63 up to 2^63 - 1 (section 1.6.10).
    Long,
    /// Unicode characters (section 1.6.16).
    Char,
    /// Points in time, in milliseconds (section 1.6.17).
    Timestamp,
    /// Universally unique identifiers (section 1.6.18).
    Uuid,
    /// Sequences of octets (section 1.6.19).
    Binary,
    /// Texts in UTF-8 (section 1.6.20).
    String,
    /// Symbols in ASCII (section 1.6.21).
    Symbol,
}

impl ElementKind {
    pub(crate) fn number(self) -> u8
        ensures { result ≡ kind_number self }
    {
        match self {
            ElementKind::Bool => 0,
            ElementKind::Ubyte => 1,
            ElementKind::Ushort => 2,
            ElementKind::Uint => 3,
            ElementKind::Ulong => 4,
            ElementKind::Byte => 5,
            ElementKind::Short => 6,
            ElementKind::Int => 7,
            ElementKind::Long => 8,
            ElementKind::Char => 9,
            ElementKind::Timestamp => 10,
            ElementKind::Uuid => 11,
            ElementKind::Binary => 12,
            ElementKind::String => 13,
            ElementKind::Symbol => 14,
        }
    }
}

/// Whether both are the same kind.
pub(crate) fn same_kind(a: ElementKind, b: ElementKind) -> bool
    ensures { result ≡ same_kind a b }
{
    a.number() == b.number()
}
