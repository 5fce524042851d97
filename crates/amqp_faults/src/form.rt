//! What a constructor says of the bytes behind it (OASIS AMQP 1.0, part 1, sections 1.2 and 1.6).
ghost use Rattle.std.specs.Prelude.{◌≡◌, option_map};
ghost use Rattle.amqp_value.specs.Code.{find_code, find_scalar};
ghost use Rattle.amqp_faults.specs.Forms.{layout_of, form_of, element_layout, octets_of, is_float, reason_of_code, unlike};

use crate::fault::Reason;

/// How many octets a size and a count take (sections 1.2.2 to 1.2.4).
#[derive(Clone, Copy, Debug, PartialEq, Eq)]
pub enum Width {
    /// One octet.
    One,
    /// Four octets, the highest first.
    Four,
}

/// What stands behind the constructor of a value that holds no other.
#[derive(Clone, Copy, Debug, PartialEq, Eq)]
pub enum Layout {
    /// So many bytes, of any kind.
    Fixed(u8),
    /// One byte, 0 or 1.
    Boolean,
    /// Four bytes, the number of a Unicode scalar value.
    Character,
    /// As many bytes as a size says.
    Binary(Width),
    /// As many bytes as a size says, in UTF-8.
    String(Width),
    /// As many bytes as a size says, in ASCII.
    Symbol(Width),
}

/// What stands behind a constructor.
#[derive(Clone, Copy, Debug, PartialEq, Eq)]
pub enum Form {
    /// A descriptor and a value.
    Described,
    /// Nothing.
    EmptyList,
    /// A size, a count and values.
    List(Width),
    /// A size, a count, keys and values in turn.
    Map(Width),
    /// A size, a count, a constructor and elements.
    Array(Width),
    /// A value that holds no other.
    Scalar(Layout),
}

impl Width {
    /// How many octets.
    pub fn octets(self) -> usize
        ensures { result ≡ octets_of self }
    {
        match self {
            Width::One => 1,
            Width::Four => 4,
        }
    }
}

impl Layout {
    /// Why bytes of this layout are refused that are there.
    pub fn unlike(self) -> Reason
        ensures { result ≡ unlike self }
    {
        match self {
            Layout::Fixed(_) | Layout::Binary(_) => Reason::CutShort,
            Layout::Boolean => Reason::NoBoolean,
            Layout::Character => Reason::NoCharacter,
            Layout::String(_) => Reason::NotUtf8,
            Layout::Symbol(_) => Reason::NotAscii,
        }
    }
}

/// What stands behind the constructor with that byte of a value that holds no other, if there is one.
fn layout_of(byte: u8) -> Option<Layout>
    ensures { result ≡ option_map layout_of (find_scalar byte) }
{
    match byte {
        0x40 | 0x41 | 0x42 | 0x43 | 0x44 => Some(Layout::Fixed(0)),
        0x50 | 0x51 | 0x52 | 0x53 | 0x54 | 0x55 => Some(Layout::Fixed(1)),
        0x56 => Some(Layout::Boolean),
        0x60 | 0x61 => Some(Layout::Fixed(2)),
        0x70 | 0x71 => Some(Layout::Fixed(4)),
        0x73 => Some(Layout::Character),
        0x80 | 0x81 | 0x83 => Some(Layout::Fixed(8)),
        0x98 => Some(Layout::Fixed(16)),
        0xa0 => Some(Layout::Binary(Width::One)),
        0xb0 => Some(Layout::Binary(Width::Four)),
        0xa1 => Some(Layout::String(Width::One)),
        0xb1 => Some(Layout::String(Width::Four)),
        0xa3 => Some(Layout::Symbol(Width::One)),
        0xb3 => Some(Layout::Symbol(Width::Four)),
        _ => None,
    }
}

/// What stands behind the constructor with that byte, if there is one.
pub fn form_of(byte: u8) -> Option<Form>
    ensures { result ≡ option_map form_of (find_code byte) }
{
    match byte {
        0x00 => Some(Form::Described),
        0x45 => Some(Form::EmptyList),
        0xc0 => Some(Form::List(Width::One)),
        0xd0 => Some(Form::List(Width::Four)),
        0xc1 => Some(Form::Map(Width::One)),
        0xd1 => Some(Form::Map(Width::Four)),
        0xe0 => Some(Form::Array(Width::One)),
        0xf0 => Some(Form::Array(Width::Four)),
        _ => {
            let layout = layout_of(byte)?;
            Some(Form::Scalar(layout))
        }
    }
}

/// What stands behind each element of an array whose constructor is that byte, if elements may have it: each takes a byte or
/// more, and holds no other value (section 1.6.24).
pub fn element_layout(byte: u8) -> Option<Layout>
    ensures { result ≡ element_layout byte }
{
    match layout_of(byte) {
        Some(Layout::Fixed(0)) | None => None,
        Some(layout) => Some(layout),
    }
}

/// Whether the byte is the constructor of a float, a double or a decimal (sections 1.6.11 to 1.6.15).
fn is_float(byte: u8) -> bool
    ensures { result ≡ is_float byte }
{
    matches!(byte, 0x72 | 0x82 | 0x74 | 0x84 | 0x94)
}

/// Why no value begins with this byte.
pub fn reason_of_code(byte: u8) -> Reason
    ensures { result ≡ reason_of_code byte }
{
    if is_float(byte) {
        Reason::Float
    } else {
        Reason::UnknownCode
    }
}
