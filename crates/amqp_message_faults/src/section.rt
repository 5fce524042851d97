//! The section at the front of bytes (OASIS AMQP 1.0, part 3, section 3.2).
ghost use Rattle.std.specs.Prelude.{ℕ, ◌≤◌, length, IfOk};
ghost use Rattle.amqp_data.specs.Data.{Amqp};
ghost use Rattle.amqp_data.specs.View.{view};
ghost use Rattle.amqp_described.specs.Reading.{Begins};
ghost use Rattle.amqp_faults.specs.Faults.{Wrong};
ghost use Rattle.amqp_message_faults.specs.Order.{SeesSection};
ghost use Rattle.amqp_message_faults.specs.Sees.{SeesFront};

use crate::content::is_content;
use crate::order::next_kind;
use amqp_data::Value;
use amqp_described::read_front;
use amqp_faults::{Fault, Reason, fault_in};
use amqp_fields::BaseError;
use amqp_messages::SectionKind;
use std::alloc::{AllocError, Global};

/// How deep a section may be nested: its value by itself 32 levels.
const SECTION_LEVELS: u8 = 33;

/// What stands at the front.
pub enum Found {
    /// A section of that kind, of so many bytes.
    Section(SectionKind, usize),
    /// What is no section that may stand there.
    Wrong(Fault),
}

/// Which kind of section the value is behind one of the first kind, or why it is none.
fn section(
    alloc: Global,
    last: Option<SectionKind>,
    value: Value,
) -> Result<Result<SectionKind, Reason>, AllocError>
    ensures { IfOk result (λ r. SeesSection r last (view value)) }
{
    let Value::Described(section) = value else {
        return Ok(Err(Reason::NoSection));
    };
    let (descriptor, content) = section.into_parts();
    let Some(kind) = next_kind(last, &descriptor) else {
        return Ok(Err(Reason::NoSection));
    };
    if is_content(alloc, kind, content)? {
        Ok(Ok(kind))
    } else {
        Ok(Err(Reason::Field))
    }
}

/// Where no value begins the bytes, and why.
fn value_fault(alloc: Global, bytes: &[u8]) -> Result<Fault, AllocError>
    requires { (v : Amqp) (used : ℕ) → Begins 33 bytes.now v used → ⊥ }
    ensures wrong { IfOk result (λ f. Wrong 33 bytes.now f.offset f.reason) }
    ensures within { IfOk result (λ f. f.offset ≤ length bytes.now) }
{
    match fault_in(alloc, bytes, SECTION_LEVELS)? {
        Some(fault) => Ok(fault),
        None => unreachable!(),
    }
}

/// What stands at the front, behind a section of that kind.
pub fn front(alloc: Global, last: Option<SectionKind>, bytes: &[u8]) -> Result<Found, AllocError>
    ensures { IfOk result (λ f. SeesFront f last bytes.now) }
{
    match read_front(alloc, bytes, SECTION_LEVELS) {
        Ok((value, used)) => match section(alloc, last, value)? {
            Ok(kind) => Ok(Found::Section(kind, used)),
            Err(reason) => Ok(Found::Wrong(Fault { offset: 0, reason })),
        },
        Err(BaseError::Memory(error)) => Err(error),
        Err(BaseError::Decode) => {
            let fault = value_fault(alloc, bytes)?;
            Ok(Found::Wrong(fault))
        }
        Err(BaseError::Size) => unreachable!(),
    }
}
