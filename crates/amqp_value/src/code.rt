//! Constructors: the first byte of a spelling (OASIS AMQP 1.0, part 1, sections 1.2 and 1.6).
ghost use Rattle.std.specs.Prelude.{◌≡◌};
ghost use Rattle.amqp_value.specs.Code.{find_code, find_scalar, code_kind, scalar_number};

use amqp_data::ElementKind;

/// How many octets a size and a count take (sections 1.2.2 to 1.2.4).
#[derive(Clone, Copy, Debug, PartialEq, Eq)]
pub enum SizeWidth {
    /// One octet.
    One,
    /// Four octets, the highest first.
    Four,
}

/// The constructors of values that hold no other value (sections 1.6.1 to 1.6.21).
#[derive(Clone, Copy, Debug, PartialEq, Eq)]
pub enum ScalarCode {
    Null,
    True,
    False,
    Boolean,
    Ubyte,
    Ushort,
    Uint0,
    SmallUint,
    Uint,
    Ulong0,
    SmallUlong,
    Ulong,
    Byte,
    Short,
    SmallInt,
    Int,
    SmallLong,
    Long,
    Char,
    Timestamp,
    Uuid,
    Binary(SizeWidth),
    String(SizeWidth),
    Symbol(SizeWidth),
}

/// The constructors of all values.
#[derive(Clone, Copy, Debug, PartialEq, Eq)]
pub enum Code {
    Described,
    EmptyList,
    List(SizeWidth),
    Map(SizeWidth),
    Array(SizeWidth),
    Scalar(ScalarCode),
}

/// The scalar constructor with that byte, if there is one.
pub fn scalar_code_of(byte: u8) -> Option<ScalarCode>
    ensures { result ≡ find_scalar byte }
{
    match byte {
        0x40 => Some(ScalarCode::Null),
        0x41 => Some(ScalarCode::True),
        0x42 => Some(ScalarCode::False),
        0x56 => Some(ScalarCode::Boolean),
        0x50 => Some(ScalarCode::Ubyte),
        0x60 => Some(ScalarCode::Ushort),
        0x43 => Some(ScalarCode::Uint0),
        0x52 => Some(ScalarCode::SmallUint),
        0x70 => Some(ScalarCode::Uint),
        0x44 => Some(ScalarCode::Ulong0),
        0x53 => Some(ScalarCode::SmallUlong),
        0x80 => Some(ScalarCode::Ulong),
        0x51 => Some(ScalarCode::Byte),
        0x61 => Some(ScalarCode::Short),
        0x54 => Some(ScalarCode::SmallInt),
        0x71 => Some(ScalarCode::Int),
        0x55 => Some(ScalarCode::SmallLong),
        0x81 => Some(ScalarCode::Long),
        0x73 => Some(ScalarCode::Char),
        0x83 => Some(ScalarCode::Timestamp),
        0x98 => Some(ScalarCode::Uuid),
        0xa0 => Some(ScalarCode::Binary(SizeWidth::One)),
        0xb0 => Some(ScalarCode::Binary(SizeWidth::Four)),
        0xa1 => Some(ScalarCode::String(SizeWidth::One)),
        0xb1 => Some(ScalarCode::String(SizeWidth::Four)),
        0xa3 => Some(ScalarCode::Symbol(SizeWidth::One)),
        0xb3 => Some(ScalarCode::Symbol(SizeWidth::Four)),
        _ => None,
    }
}

/// The constructor with that byte, if there is one.
pub fn code_of(byte: u8) -> Option<Code>
    ensures { result ≡ find_code byte }
{
    match byte {
        0x00 => Some(Code::Described),
        0x45 => Some(Code::EmptyList),
        0xc0 => Some(Code::List(SizeWidth::One)),
        0xd0 => Some(Code::List(SizeWidth::Four)),
        0xc1 => Some(Code::Map(SizeWidth::One)),
        0xd1 => Some(Code::Map(SizeWidth::Four)),
        0xe0 => Some(Code::Array(SizeWidth::One)),
        0xf0 => Some(Code::Array(SizeWidth::Four)),
        _ => {
            let scalar = scalar_code_of(byte)?;
            Some(Code::Scalar(scalar))
        }
    }
}

impl ScalarCode {
    /// The constructor's byte.
    pub fn byte(self) -> u8
        ensures { result ≡ scalar_number self }
    {
        match self {
            ScalarCode::Null => 0x40,
            ScalarCode::True => 0x41,
            ScalarCode::False => 0x42,
            ScalarCode::Boolean => 0x56,
            ScalarCode::Ubyte => 0x50,
            ScalarCode::Ushort => 0x60,
            ScalarCode::Uint0 => 0x43,
            ScalarCode::SmallUint => 0x52,
            ScalarCode::Uint => 0x70,
            ScalarCode::Ulong0 => 0x44,
            ScalarCode::SmallUlong => 0x53,
            ScalarCode::Ulong => 0x80,
            ScalarCode::Byte => 0x51,
            ScalarCode::Short => 0x61,
            ScalarCode::SmallInt => 0x54,
            ScalarCode::Int => 0x71,
            ScalarCode::SmallLong => 0x55,
            ScalarCode::Long => 0x81,
            ScalarCode::Char => 0x73,
            ScalarCode::Timestamp => 0x83,
            ScalarCode::Uuid => 0x98,
            ScalarCode::Binary(SizeWidth::One) => 0xa0,
            ScalarCode::Binary(SizeWidth::Four) => 0xb0,
            ScalarCode::String(SizeWidth::One) => 0xa1,
            ScalarCode::String(SizeWidth::Four) => 0xb1,
            ScalarCode::Symbol(SizeWidth::One) => 0xa3,
            ScalarCode::Symbol(SizeWidth::Four) => 0xb3,
        }
    }

    /// The kind of an array whose elements have this constructor, if there is such an array:
    /// an element takes a byte or more (section 1.6.24).
    pub fn element_kind(self) -> Option<ElementKind>
        ensures { result ≡ code_kind self }
    {
        match self {
            ScalarCode::Null
            | ScalarCode::True
            | ScalarCode::False
            | ScalarCode::Uint0
            | ScalarCode::Ulong0 => None,
            ScalarCode::Boolean => Some(ElementKind::Bool),
            ScalarCode::Ubyte => Some(ElementKind::Ubyte),
            ScalarCode::Ushort => Some(ElementKind::Ushort),
            ScalarCode::SmallUint | ScalarCode::Uint => Some(ElementKind::Uint),
            ScalarCode::SmallUlong | ScalarCode::Ulong => Some(ElementKind::Ulong),
            ScalarCode::Byte => Some(ElementKind::Byte),
            ScalarCode::Short => Some(ElementKind::Short),
            ScalarCode::SmallInt | ScalarCode::Int => Some(ElementKind::Int),
            ScalarCode::SmallLong | ScalarCode::Long => Some(ElementKind::Long),
            ScalarCode::Char => Some(ElementKind::Char),
            ScalarCode::Timestamp => Some(ElementKind::Timestamp),
            ScalarCode::Uuid => Some(ElementKind::Uuid),
            ScalarCode::Binary(_) => Some(ElementKind::Binary),
            ScalarCode::String(_) => Some(ElementKind::String),
            ScalarCode::Symbol(_) => Some(ElementKind::Symbol),
        }
    }
}
