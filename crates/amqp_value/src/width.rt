//! How many octets a size and a count take (OASIS AMQP 1.0, part 1, sections 1.2.2 to 1.2.4).
ghost use Rattle.std.specs.Prelude.{◌≡◌, ℕ, ◌<◌, ◌^◌, length};
ghost use Rattle.amqp_value.specs.Canonical.{width_of, compound_width};
ghost use Rattle.amqp_value.specs.Writing.{octet_count, width_in};

use crate::code::{ScalarCode, SizeWidth};

/// The least width of a text's length.
pub(crate) fn text_width(bytes: &[u8]) -> SizeWidth
    ensures { result ≡ width_of bytes.now }
{
    if bytes.len() < 256 {
        SizeWidth::One
    } else {
        SizeWidth::Four
    }
}

/// The least width of a count and of the size of it and the items.
pub(crate) fn compound_width(count: u64, items: u64) -> SizeWidth
    ensures { result ≡ compound_width count items }
{
    if count < 256 && items < 255 {
        SizeWidth::One
    } else {
        SizeWidth::Four
    }
}

impl SizeWidth {
    /// The number of octets.
    pub(crate) fn octets(self) -> u64
        ensures { result ≡ octet_count self }
    {
        match self {
            SizeWidth::One => 1,
            SizeWidth::Four => 4,
        }
    }
}

impl ScalarCode {
    /// The width of a text's length behind the constructor.
    pub(crate) fn width(self) -> SizeWidth
        ensures { result ≡ width_in self }
    {
        match self {
            ScalarCode::Binary(width) | ScalarCode::String(width) | ScalarCode::Symbol(width) =>
                width,
            _ => SizeWidth::Four,
        }
    }
}
