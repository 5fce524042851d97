//! Values that are written and read back (OASIS AMQP 1.0, part 1, sections 1.2 and 1.6).
ghost use Rattle.std.specs.Prelude.{◌≡◌, ◌≤◌, ◌<◌, length, OnOk, IfOk, IfErr, Err};
ghost use Rattle.amqp_data.specs.Data.{depth};
ghost use Rattle.amqp_data.specs.View.{view};
ghost use Rattle.amqp_value.specs.Canonical.{canonical, IsSized};
ghost use Rattle.amqp_value.specs.Writing.{IsOfWriting};

use amqp_data::Value;
use amqp_value::{ValueError, read_value, to_vec};
use std::alloc::Global;

/// The value as it is read back from its canonical bytes, and how many of them were read: it is the same, and all were read.
/// `Depth` comes exactly where it nests deeper than 32, else `Size` exactly where a length needs more than 32 bits; no other
/// error comes but want of memory.
pub fn value_read_back(alloc: Global, value: &Value) -> Result<(Value, usize), ValueError>
    ensures again { IfOk result (λ x. (view x.0 ≡ view value.now) × (x.1 ≡ length (canonical (view value.now)))) }

    ensures nests { OnOk result (depth (view value.now) ≤ 32) }
    ensures too_deep { 32 < depth (view value.now) → result ≡ Err ValueError.Depth }
    ensures deep { result ≡ Err ValueError.Depth → 32 < depth (view value.now) }

    ensures sized { OnOk result (IsSized (view value.now)) }
    ensures too_long { depth (view value.now) ≤ 32 → (IsSized (view value.now) → ⊥) → result ≡ Err ValueError.Size }
    ensures size { result ≡ Err ValueError.Size → IsSized (view value.now) → ⊥ }

    ensures refused { IfErr result IsOfWriting }
{
    let bytes = to_vec(alloc, value)?;
    read_value(alloc, bytes.as_slice())
}
