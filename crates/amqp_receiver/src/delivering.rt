//! The messages of deliveries (OASIS AMQP 1.0, part 3, section 3.2).
ghost use Rattle.std.specs.Prelude.{◌≡◌, IfOk};
ghost use Rattle.amqp_messages.specs.Reading.{IsTheMessage, SpellsMessage};
ghost use Rattle.amqp_receiver.specs.Receiver.{seen};
ghost use Rattle.amqp_receiver.specs.Receiving.{got, received};
ghost use Rattle.amqp_receiver.specs.Delivering.{all_bytes, unboxed, Decodes, Gives, Receives};

use crate::error::RecvError;
use crate::receiver::Receiver;
use crate::receiving::Received;
use amqp_data::Binary;
use amqp_delivery::DeliveryInfo;
use amqp_fields::BaseError;
use amqp_messages::{Message, decode_message};
use bytes::Bytes;
use std::alloc::{AllocError, Global};

/// A message, and what names its delivery.
#[derive(Debug)]
pub struct Delivery {
    /// What names the delivery.
    pub info: DeliveryInfo,
    /// The handle of this end.
    pub link_handle: u32,
    /// The format of the message.
    pub message_format: Option<u32>,
    /// The message, in its own place of memory: it is large.
    pub message: Box<Message>,
}

// It is let go by a call, so that no caller sees what it holds.
impl Drop for Delivery {
    fn drop(self) {
        let Delivery {
            info,
            link_handle: _,
            message_format: _,
            message,
        } = self;
        drop(info);
        drop(message);
    }
}

impl Delivery {
    /// What names it, and its message.
    pub fn into_parts(self) -> (DeliveryInfo, Box<Message>)
        ensures { (result.0 ≡ self.info) × (result.1 ≡ self.message) }
    {
        let Delivery {
            info,
            link_handle: _,
            message_format: _,
            message,
        } = self;
        (info, message)
    }
}

/// What a call that receives answers.
#[derive(Debug, Drop)]
pub enum RecvReply {
    /// More has to come.
    Pending,
    /// A message.
    Ready(Delivery),
}

/// The bytes of all parts, in one piece.
fn joined(alloc: Global, payloads: Vec<Bytes>) -> Result<Binary, AllocError>
    ensures { IfOk result (λ bytes. bytes ≡ all_bytes payloads.items) }
{
    let mut bytes = Binary::new(alloc);
    let mut left = payloads.into_iter();
    while let Some(payload) = left.next() {
        bytes.append(payload.as_slice())?;
    }
    Ok(bytes)
}

/// The message that the bytes of the parts spell; those of one part are read as they are.
fn message_in(alloc: Global, payloads: Vec<Bytes>) -> Result<Message, BaseError>
    ensures { IsTheMessage result (SpellsMessage (all_bytes payloads.items)) }
{
    if payloads.len() == 1 {
        return decode_message(alloc, payloads[0].as_slice());
    }
    let bytes = joined(alloc, payloads)?;
    decode_message(alloc, bytes.as_slice())
}

/// A message, in its own place of memory.
fn placed(alloc: Global, message: Message) -> Result<Box<Message>, AllocError>
    ensures { IfOk result (λ place. place.value ≡ message) }
{
    let place = Box::new(alloc, message)?;
    Ok(place)
}

/// The message that the bytes of the parts spell, in its own place of memory.
fn placed_message_in(alloc: Global, payloads: Vec<Bytes>) -> Result<Box<Message>, BaseError>
    ensures { IsTheMessage (unboxed result) (SpellsMessage (all_bytes payloads.items)) }
{
    let message = message_in(alloc, payloads)?;
    let place = placed(alloc, message)?;
    Ok(place)
}

/// The message of a delivery: `MessageDecode` exactly where its bytes spell none.
fn decoded(alloc: Global, link_handle: u32, received: Received) -> Result<Delivery, RecvError>
    ensures { Decodes result link_handle (got received) }
{
    let (info, message_format, payloads) = received.into_parts();
    match placed_message_in(alloc, payloads) {
        Ok(message) => Ok(Delivery {
            info,
            link_handle,
            message_format,
            message,
        }),
        Err(BaseError::Memory(error)) => Err(RecvError::Memory(error)),
        Err(source) => Err(RecvError::MessageDecode { info, source }),
    }
}

impl Receiver {
    /// The message of a delivery that is complete; it is accepted, where that is to be done at once.
    fn give_message(&mut self, received: Received) -> Result<RecvReply, RecvError>
        ensures { Gives result (got received) (seen self.old) (seen self.new) }
    {
        let delivery = decoded(self.alloc, self.link.handle(), received)?;
        self.accept_if_auto(&delivery.info)?;
        Ok(RecvReply::Ready(delivery))
    }

    #[tactic(auto, using(crate::proofs::Giving::given))]
    /// The next message: none where more has to come. Where deliveries are accepted as they are given, this one is: a Disposition is to
    /// be written, and a Flow where credit is due, but nothing where the link is not attached any more or its session has stopped. The
    /// errors are those of `receive`, and `MessageDecode` exactly where the bytes of a delivery spell no message: it stays unsettled. For
    /// want of memory the receiver is not known any more.
    pub fn recv(&mut self) -> Result<RecvReply, RecvError>
        ensures { Receives result (received (seen self.old)) (seen self.new) }
    {
        match self.receive()? {
            Some(received) => self.give_message(received),
            None => Ok(RecvReply::Pending),
        }
    }
}
