//! The fields of a described list, by their sizes.
ghost use Rattle.std.specs.Prelude.{◌≡◌, ◌≤◌, Bool, if◌then◌else◌};
ghost use Rattle.amqp_data.specs.Data.{scalar, null};
ghost use Rattle.amqp_fields.specs.Fields.{maybe};
ghost use Rattle.amqp_sizes.specs.Taken.{Takes, IsSlot};

use amqp_fields::Field;

/// A type of fields that can be measured without being written.
pub(crate) trait Measured: Field {
    /// How many bytes are written of it: nothing where a length needs more than 32 bits, or it is nested deeper than so many levels.
    fn size(&self, levels: u8) -> Option<u64>
        requires { levels ≤ 32 }
        ensures { Takes result levels (Self.writes self.now) };
}

/// A field, by the bytes that are written of it.
#[derive(Clone, Copy, Debug)]
pub(crate) enum Slot {
    /// A null, which is left out behind the last field that is there.
    Null,
    /// So many bytes.
    Takes(u64),
    /// A length needs more than 32 bits, or it is nested too deep.
    Refused,
}

/// A field that is always there.
pub(crate) fn required<T: Measured>(field: &T, levels: u8) -> Slot
    requires { levels ≤ 32 }
    ensures { IsSlot result levels (T.writes field.now) }
{
    match field.size(levels) {
        Some(size) => Slot::Takes(size),
        None => Slot::Refused,
    }
}

/// A field that may be absent, as null.
pub(crate) fn optional<T: Measured>(field: &Option<T>, levels: u8) -> Slot
    requires { levels ≤ 32 }
    ensures { IsSlot result levels (maybe T.writes field.now) }
{
    match field {
        None => Slot::Null,
        Some(field) => required(field, levels),
    }
}

/// A field that is null where it is the default.
pub(crate) fn unless<T: Measured>(is_default: bool, field: &T, levels: u8) -> Slot
    requires { levels ≤ 32 }
    ensures { (same : Bool) → is_default ≡ same → IsSlot result levels (if same then scalar null else T.writes field.now) }
{
    if is_default {
        Slot::Null
    } else {
        required(field, levels)
    }
}
