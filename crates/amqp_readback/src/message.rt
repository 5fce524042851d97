//! Messages that are written and read back (OASIS AMQP 1.0, part 3, section 3.2).
ghost use Rattle.amqp_messages.specs.Message.{seen};
ghost use Rattle.amqp_messages.specs.Writing.{message_items, AllFit};
ghost use Rattle.amqp_readback.specs.Bodies.{ComesBack};

use amqp_fields::BaseError;
use amqp_messages::{Message, decode_message, encode_message};
use std::alloc::Global;

/// The message as it is read back from its canonical bytes: it is the same. `Size` comes exactly where what a section holds is
/// nested more than 32 deep or a length needs more than 32 bits, and `Decode` never.
pub fn message_read_back(alloc: Global, message: &Message) -> Result<Message, BaseError>
    ensures { ComesBack seen result (seen message.now) (AllFit (message_items (seen message.now))) }
{
    let bytes = encode_message(alloc, message)?;
    decode_message(alloc, bytes.as_slice())
}
