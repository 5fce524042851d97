//! The error of a Close in the text of a trace (OASIS AMQP 1.0, part 2, section 2.8.14).
ghost use Rattle.std.specs.Prelude.{◌≡◌, ◌++◌, OnOk};
ghost use Rattle.amqp_data.specs.Data.{dict};
ghost use Rattle.amqp_script.specs.Info.{value_text, info_text, fault_text};

use crate::trace_text::hex::{push_bytes, push_text, push_word};
use amqp_composites::error::Error as AmqpError;
use amqp_data::OrderedMap;
use amqp_fields::FieldMap;
use amqp_text::Binary;
use amqp_value::{ValueError, write_map};
use std::alloc::{AllocError, Global};

/// Adds the canonical bytes of a map, or the word that says why it has none.
fn push_map(alloc: Global, out: &mut Vec<u8>, map: &OrderedMap) -> Result<(), AllocError>
    ensures { OnOk result (out.new.items ≡ out.old.items ++ value_text (dict map.now)) }
{
    let mut bytes = Binary::new(alloc);
    match write_map(&mut bytes, map) {
        Ok(()) => push_bytes(out, bytes.as_slice()),
        Err(ValueError::Memory(error)) => Err(error),
        Err(ValueError::Depth) => push_word(out, b"deep"),
        Err(ValueError::Size) => push_word(out, b"long"),
        Err(ValueError::Decode | ValueError::Short) => unreachable!(),
    }
}

fn push_info(alloc: Global, out: &mut Vec<u8>, info: &Option<FieldMap>) -> Result<(), AllocError>
    ensures { OnOk result (out.new.items ≡ out.old.items ++ info_text info.now) }
{
    match info {
        Some(info) => push_map(alloc, out, info.as_map()),
        None => push_word(out, b"-"),
    }
}

/// Adds the condition as it is, the description's bytes and the info's.
pub fn push_fault(alloc: Global, out: &mut Vec<u8>, error: &AmqpError) -> Result<(), AllocError>
    ensures { OnOk result (out.new.items ≡ out.old.items ++ fault_text error.now) }
{
    out.extend_from_slice(error.condition.as_slice())?;
    out.push(b' ')?;
    push_text(out, &error.description)?;
    out.push(b' ')?;
    push_info(alloc, out, &error.info)?;
    Ok(())
}
