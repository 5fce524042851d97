//! The text of the answers to calls for links.
//!
//! An answer is `pending`, `sender`, `receiver`, `sent`, `disposer`, `done`, `detached`, `closed`, `error Elapsed`, `credit N`, `outcome STATE`, `delivery ID TAG MESSAGE` with the
//! message in canonical bytes, or `error PATH FIELDS` with a PATH that begins with `SenderAttach`, `ReceiverAttach`, `Accept`, `Send`,
//! `Recv`, `Disposition`, `Flow` or `Detach`. A STATE is `accepted`, `released`, `rejected` and the error or `-`, `modified F U MAP` with `yes`,
//! `no` or `-` for the two flags, or `declared BYTES`. In place of the message stands `long` where it has no canonical bytes.
ghost use Rattle.std.specs.Prelude.{◌≡◌, ◌++◌, OnOk};
ghost use Rattle.amqp_messages.specs.Message.{seen};
ghost use Rattle.amqp_data.specs.Data.{dict};
ghost use Rattle.amqp_script.specs.Info.{value_text, info_text};
ghost use Rattle.amqp_link_words.specs.declared.link_reply.LinkReply.{LinkReply};
ghost use Rattle.amqp_link_script.specs.Answers.{flag_text, optional_fault_text, modified_text, state_text, message_text, delivery_text, link_answer_text};

use amqp_composites::error::Error as AmqpError;
use amqp_data::OrderedMap;
use amqp_delivery::DeliveryInfo;
use amqp_error_texts::links::{
    push_accept, push_attach, push_detach, push_illegal_state, push_recv, push_send,
};
use amqp_fields::{BaseError, FieldMap};
use amqp_link_words::LinkReply;
use amqp_messages::{Message, encode_message};
use amqp_script::trace_text::fault::push_fault;
use amqp_script::trace_text::hex::{push_bytes, push_named, push_word};
use amqp_termini::{Modified, Outcome};
use amqp_text::Binary;
use amqp_value::{ValueError, write_map};
use std::alloc::{AllocError, Global};

fn flag_name(flag: Option<bool>) -> &'static [u8]
    ensures { result.now ≡ flag_text flag }
{
    match flag {
        None => b"-",
        Some(true) => b"yes",
        Some(false) => b"no",
    }
}

fn push_optional_fault(
    alloc: Global,
    out: &mut Vec<u8>,
    error: &Option<AmqpError>,
) -> Result<(), AllocError>
    ensures { OnOk result (out.new.items ≡ out.old.items ++ optional_fault_text error.now) }
{
    match error {
        Some(error) => push_fault(alloc, out, error),
        None => push_word(out, b"-"),
    }
}

/// Adds the canonical bytes of a map, or the word that says why it has none.
fn push_map(alloc: Global, out: &mut Vec<u8>, map: &OrderedMap) -> Result<(), AllocError>
    ensures { OnOk result (out.new.items ≡ out.old.items ++ value_text (dict map.now)) }
{
    let mut bytes = Binary::new(alloc);
    match write_map(&mut bytes, map) {
        Ok(()) => push_bytes(out, bytes.as_slice()),
        Err(ValueError::Memory(error)) => Err(error),
        Err(ValueError::Depth) => push_word(out, b"deep"),
        Err(ValueError::Size) => push_word(out, b"long"),
        Err(ValueError::Decode | ValueError::Short) => unreachable!(),
    }
}

fn push_annotations(
    alloc: Global,
    out: &mut Vec<u8>,
    annotations: &Option<FieldMap>,
) -> Result<(), AllocError>
    ensures { OnOk result (out.new.items ≡ out.old.items ++ info_text annotations.now) }
{
    match annotations {
        Some(map) => push_map(alloc, out, map.as_map()),
        None => push_word(out, b"-"),
    }
}

fn push_modified(alloc: Global, out: &mut Vec<u8>, state: &Modified) -> Result<(), AllocError>
    ensures { OnOk result (out.new.items ≡ out.old.items ++ modified_text state.now) }
{
    out.extend_from_slice(b"modified ")?;
    out.extend_from_slice(flag_name(state.delivery_failed))?;
    out.push(b' ')?;
    out.extend_from_slice(flag_name(state.undeliverable_here))?;
    out.push(b' ')?;
    push_annotations(alloc, out, &state.message_annotations)?;
    Ok(())
}

/// Adds the state in which a delivery ended.
fn push_state(alloc: Global, out: &mut Vec<u8>, state: &Outcome) -> Result<(), AllocError>
    ensures { OnOk result (out.new.items ≡ out.old.items ++ state_text state.now) }
{
    match state {
        Outcome::Accepted(_) => push_word(out, b"accepted"),
        Outcome::Rejected(body) => {
            out.extend_from_slice(b"rejected ")?;
            push_optional_fault(alloc, out, &body.error)
        }
        Outcome::Released(_) => push_word(out, b"released"),
        Outcome::Modified(body) => push_modified(alloc, out, body),
        Outcome::Declared(body) => push_named(out, b"declared ", body.txn_id.as_slice()),
    }
}

/// Adds the canonical bytes of a message.
fn push_message(alloc: Global, out: &mut Vec<u8>, message: &Message) -> Result<(), AllocError>
    ensures { OnOk result (out.new.items ≡ out.old.items ++ message_text (seen message.now)) }
{
    match encode_message(alloc, message) {
        Ok(bytes) => push_bytes(out, bytes.as_slice()),
        Err(BaseError::Memory(error)) => Err(error),
        Err(BaseError::Size) => push_word(out, b"long"),
        Err(BaseError::Decode) => unreachable!(),
    }
}

fn push_delivery(
    alloc: Global,
    out: &mut Vec<u8>,
    info: &DeliveryInfo,
    message: &Message,
) -> Result<(), AllocError>
    ensures { OnOk result (out.new.items ≡ out.old.items ++ delivery_text info.now (seen message.now)) }
{
    let head = format!(in alloc; "delivery {} ", info.delivery_id)?;
    out.extend_from_slice(head.as_bytes())?;
    push_bytes(out, info.delivery_tag.as_slice())?;
    out.push(b' ')?;
    push_message(alloc, out, message)?;
    Ok(())
}

fn push_credit(alloc: Global, out: &mut Vec<u8>, credit: u32) -> Result<(), AllocError>
    ensures { OnOk result (out.new.items ≡ out.old.items ++ link_answer_text (LinkReply.Credit credit)) }
{
    let text = format!(in alloc; "{credit}")?;
    out.extend_from_slice(b"credit ")?;
    out.extend_from_slice(text.as_bytes())?;
    Ok(())
}

/// Adds the answer to a call for a link.
pub fn push_link_answer(
    alloc: Global,
    out: &mut Vec<u8>,
    reply: &LinkReply,
) -> Result<(), AllocError>
    ensures { OnOk result (out.new.items ≡ out.old.items ++ link_answer_text reply.now) }
{
    match reply {
        LinkReply::Pending => push_word(out, b"pending"),
        LinkReply::Sender => push_word(out, b"sender"),
        LinkReply::Receiver => push_word(out, b"receiver"),
        LinkReply::Sent => push_word(out, b"sent"),
        LinkReply::Disposer => push_word(out, b"disposer"),
        LinkReply::Outcome(state) => {
            out.extend_from_slice(b"outcome ")?;
            push_state(alloc, out, state)
        }
        LinkReply::Delivery { info, message } => push_delivery(alloc, out, info, message),
        LinkReply::Done => push_word(out, b"done"),
        LinkReply::Credit(credit) => push_credit(alloc, out, *credit),
        LinkReply::SenderAttachError(error) => {
            push_attach(alloc, out, b"error SenderAttach.", error)
        }
        LinkReply::ReceiverAttachError(error) => {
            push_attach(alloc, out, b"error ReceiverAttach.", error)
        }
        LinkReply::AcceptError(error) => { push_accept(alloc, out, b"error Accept.", error) }
        LinkReply::SendError(error) => { push_send(alloc, out, b"error Send.", error) }
        LinkReply::RecvError(error) => { push_recv(alloc, out, b"error Recv.", error) }
        LinkReply::DispositionError(error) => {
            push_illegal_state(alloc, out, b"error Disposition.", error)
        }
        LinkReply::FlowError(error) => { push_illegal_state(alloc, out, b"error Flow.", error) }
        LinkReply::Elapsed => push_word(out, b"error Elapsed"),
        LinkReply::Detached => push_word(out, b"detached"),
        LinkReply::Closed => push_word(out, b"closed"),
        LinkReply::DetachError(error) => { push_detach(alloc, out, b"error Detach.", error) }
    }
}
