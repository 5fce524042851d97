//! Fields with a default.
ghost use Rattle.std.specs.Prelude.{◌≡◌, Bool, true, nat_eq, IsTrue};
ghost use Rattle.std.specs.Str.{bytes_eq};
ghost use Rattle.amqp_fields.specs.Again.{bools_are, numbers_are, texts_are};
ghost use Rattle.amqp_fields.specs.Fields.{same_bool};

use crate::field::Field;
use amqp_data::Symbol;

/// A type of fields that can have a default (OASIS AMQP 1.0, part 1, section 1.4.1).
pub trait Defaulted: Field {
    ghost same: { Self → Self → Bool };

    /// Whether both are the same.
    fn is(&self, other: &Self) -> bool
        ensures { result ≡ same self.now other.now };

    ghost decides: { (x y : Self) → IsTrue (same x y) → x ≡ y };
}

impl Defaulted for bool {
    ghost same = { same_bool };

    fn is(&self, other: &Self) -> bool {
        *self == *other
    }

    ghost decides = { bools_are };
}

impl Defaulted for u8 {
    ghost same = { nat_eq };

    fn is(&self, other: &Self) -> bool {
        *self == *other
    }

    ghost decides = { numbers_are };
}

impl Defaulted for u16 {
    ghost same = { nat_eq };

    fn is(&self, other: &Self) -> bool {
        *self == *other
    }

    ghost decides = { numbers_are };
}

impl Defaulted for u32 {
    ghost same = { nat_eq };

    fn is(&self, other: &Self) -> bool {
        *self == *other
    }

    ghost decides = { numbers_are };
}

impl Defaulted for Symbol {
    ghost same = { bytes_eq };

    fn is(&self, other: &Self) -> bool {
        self.as_slice() == other.as_slice()
    }

    ghost decides = { texts_are };
}
