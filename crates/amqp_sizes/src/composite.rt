//! The size of a described list (OASIS AMQP 1.0, part 1, sections 1.2.3, 1.4 and 1.6.22).
ghost use Rattle.std.specs.Prelude.{◌≡◌, ℕ, ◌+◌, ◌-◌, ◌<◌, ◌≤◌, ◌^◌, List, length, IfSome, IfNone};
ghost use Rattle.amqp_composites.specs.declared.kind.CompositeKind.{CompositeKind as Kind};
ghost use Rattle.amqp_composites.specs.Described.{composite};
ghost use Rattle.amqp_data.specs.Data.{Amqp, Items, item, list};
ghost use Rattle.amqp_fields.specs.Fields.{trimmed};
ghost use Rattle.amqp_value.specs.Writing.{compound_length};
ghost use Rattle.amqp_sizes.specs.Taken.{Takes, AreSlots, TakeAll, HaveSize, HasSize};

use crate::slot::Slot;

/// What a length in 32 bits stays below.
pub(crate) const SIZE_LIMIT: u64 = 0x1_0000_0000;

/// How many values there are, and how many bytes they take one after another.
#[derive(Clone, Copy, Debug)]
pub(crate) struct Measure {
    count: u64,
    bytes: u64,
}

/// How many bytes a constructor, a size, a count and so many items of so many bytes take.
pub(crate) fn compound_size(count: u64, bytes: u64) -> u64
    requires { bytes < 2 ^ 32 }
    ensures { result ≡ compound_length count bytes }
{
    if count < 256 && bytes < 255 {
        bytes + 3
    } else {
        bytes + 9
    }
}

/// So many bytes more, unless they have no room beside a count.
pub(crate) fn sum_within(total: u64, size: u64) -> Option<u64>
    requires { 4 + total < 2 ^ 32 }
    ensures some { IfSome result (λ n. (n ≡ total + size) × (4 + n < 2 ^ 32)) }
    ensures none { IfNone result (2 ^ 32 ≤ 4 + (total + size)) }
{
    if size >= SIZE_LIMIT - 4 - total {
        None
    } else {
        Some(total + size)
    }
}

impl Measure {
    /// With a value more of that size, unless that has no room.
    fn with(self, size: u64) -> Option<Measure>
        requires short { 4 + self.bytes < 2 ^ 32 }
        requires few { self.count + 1 < 2 ^ 64 }
        ensures some { IfSome result (λ m. (m.count ≡ self.count + 1) × (m.bytes ≡ self.bytes + size) × (4 + m.bytes < 2 ^ 32)) }
        ensures none { IfNone result (2 ^ 32 ≤ 4 + (self.bytes + size)) }
    {
        let bytes = sum_within(self.bytes, size)?;
        Some(Measure {
            count: self.count + 1,
            bytes,
        })
    }

    /// How many bytes the list of the values takes.
    fn list_size(self) -> u64
        requires { 4 + self.bytes < 2 ^ 32 }
        ensures value { (levels : ℕ) (vs : Items) → HaveSize self levels vs → HasSize result (levels + 1) (list vs) }
        ensures small { result < 2 ^ 33 }
    {
        if self.count == 0 {
            1
        } else {
            compound_size(self.count, self.bytes)
        }
    }
}

/// How many fields there are without the nulls at the end, and their bytes.
fn kept(slots: &[Slot]) -> Option<Measure>
    ensures fields { (levels : ℕ) (fs : List Amqp) → AreSlots slots.now levels fs → TakeAll result levels (trimmed fs) }
    ensures few { IfSome result (λ m. m.count ≤ length slots.now) }
    ensures short { IfSome result (λ m. 4 + m.bytes < 2 ^ 32) }
{
    let [first, rest @ ..] = slots else {
        return Some(Measure { count: 0, bytes: 0 });
    };
    let behind = kept(rest)?;
    match first {
        Slot::Null => {
            if behind.count == 0 {
                Some(behind)
            } else {
                behind.with(1)
            }
        }
        Slot::Takes(size) => behind.with(*size),
        Slot::Refused => None,
    }
}

/// How many levels are left for the fields of a described list.
pub(crate) fn inner(levels: u8) -> u8
    ensures { result ≡ levels - 2 }
{
    levels.saturating_sub(2)
}

/// How many bytes a described list of those fields takes, within so many levels. The descriptor of each kind takes three.
pub(crate) fn composite_size(slots: &[Slot], levels: u8) -> Option<u64>
    ensures { (kind : Kind) (fs : List Amqp) (within : ℕ) → within ≡ levels - 2 → AreSlots slots.now within fs
        → Takes result levels (composite kind fs) }
{
    if levels < 2 {
        return None;
    }
    let fields = kept(slots)?;
    Some(3 + fields.list_size())
}
