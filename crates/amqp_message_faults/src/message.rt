//! Messages (OASIS AMQP 1.0, part 3, section 3.2). They are walked section by section, up to the first that is none.
ghost use Rattle.std.specs.Prelude.{◌≤◌, length, IfOk};
ghost use Rattle.amqp_message_faults.specs.Messages.{NoMessage, WrongMessage, NamesMessage};

use crate::section::{Found, front};
use amqp_faults::Fault;
use amqp_fields::BaseError;
use amqp_messages::{Message, decode_message};
use std::alloc::{AllocError, Global};

fn discard(_message: Message) {}

/// Where bytes that are no message are none, and why.
fn fault_among(alloc: Global, input: &[u8]) -> Result<Fault, AllocError>
    requires { NoMessage input.now }
    ensures wrong { IfOk result (λ f. WrongMessage input.now f.offset f.reason) }
    ensures within { IfOk result (λ f. f.offset ≤ length input.now) }
{
    let mut rest = input;
    let mut last = None;
    'sections: while !rest.is_empty() {
        match front(alloc, last, rest)? {
            Found::Wrong(fault) => {
                return Ok(Fault {
                    offset: (input.len() - rest.len()) + fault.offset,
                    reason: fault.reason,
                });
            }
            Found::Section(kind, used) => {
                (_, rest) = rest.split_at(used);
                last = Some(kind);
            }
        }
    }
    unreachable!()
}

/// Where bytes are no message, and why: none exactly where they spell one, as `decode_message` reads it. The one error is want of
/// memory.
pub fn fault_in_message(alloc: Global, input: &[u8]) -> Result<Option<Fault>, AllocError>
    ensures { IfOk result (λ o. NamesMessage o input.now) }
{
    match decode_message(alloc, input) {
        Ok(message) => {
            discard(message);
            Ok(None)
        }
        Err(BaseError::Memory(error)) => Err(error),
        Err(BaseError::Decode) => {
            let fault = fault_among(alloc, input)?;
            Ok(Some(fault))
        }
        Err(BaseError::Size) => unreachable!(),
    }
}
