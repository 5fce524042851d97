//! Errors of links in the text of a trace: the variants from outside inwards, joined by points, and the fields of the innermost one.
ghost use Rattle.std.specs.Prelude.{◌≡◌, ◌++◌, decimal, OnOk};
ghost use Rattle.amqp_error_texts.specs.LinkText.{attach_name, attach_text, placed_text, accept_text, link_state_text, illegal_state_text, detach_text, size_text, send_text, mode_text, info_text, base_text, decode_text, recv_text};

use crate::sessions::{push_session_reason, push_with};
use amqp_composites::modes::ReceiverSettleMode;
use amqp_delivery::DeliveryInfo;
use amqp_fields::BaseError;
use amqp_link::{AttachError, DetachError, IllegalLinkStateError, LinkStateError};
use amqp_link_words::AcceptError;
use amqp_receiver::RecvError;
use amqp_script::trace_text::hex::{push_bytes, push_word, push_words};
use amqp_sender::SendError;
use std::alloc::{AllocError, Global};

/// The name of the variant.
fn attach_name(error: &AttachError) -> &'static [u8]
    ensures { result.now ≡ attach_name error.now }
{
    match error {
        AttachError::Memory(_) => b"Memory",
        AttachError::SessionStopped(_) => b"SessionStopped",
        AttachError::SessionNotMapped => b"SessionNotMapped",
        AttachError::DuplicatedLinkName => b"DuplicatedLinkName",
        AttachError::HandleMaxReached => b"HandleMaxReached",
        AttachError::IllegalState => b"IllegalState",
        AttachError::RemoteClosedWithError(_) => b"RemoteClosedWithError",
        AttachError::NonAttachFrameReceived => b"NonAttachFrameReceived",
        AttachError::ExpectImmediateDetach => b"ExpectImmediateDetach",
        AttachError::CoordinatorIsNotImplemented => b"CoordinatorIsNotImplemented",
        AttachError::IncomingTargetIsNone => b"IncomingTargetIsNone",
        AttachError::IncomingSourceIsNone => b"IncomingSourceIsNone",
        AttachError::InitialDeliveryCountIsNone => b"InitialDeliveryCountIsNone",
        AttachError::SndSettleModeNotSupported => b"SndSettleModeNotSupported",
        AttachError::TargetAddressIsNoneWhenDynamicIsTrue =>
            b"TargetAddressIsNoneWhenDynamicIsTrue",
        AttachError::SourceAddressIsSomeWhenDynamicIsTrue =>
            b"SourceAddressIsSomeWhenDynamicIsTrue",
        AttachError::TargetAddressIsSomeWhenDynamicIsTrue =>
            b"TargetAddressIsSomeWhenDynamicIsTrue",
        AttachError::SourceAddressIsNoneWhenDynamicIsTrue =>
            b"SourceAddressIsNoneWhenDynamicIsTrue",
        AttachError::DynamicNodePropertiesIsSomeWhenDynamicIsFalse =>
            b"DynamicNodePropertiesIsSomeWhenDynamicIsFalse",
        AttachError::DynamicRefused => b"DynamicRefused",
    }
}

/// Adds why a link is not attached.
fn push_attach_error(
    alloc: Global,
    out: &mut Vec<u8>,
    error: &AttachError,
) -> Result<(), AllocError>
    ensures { OnOk result (out.new.items ≡ out.old.items ++ attach_text error.now) }
{
    match error {
        AttachError::SessionStopped(reason) => {
            out.extend_from_slice(b"SessionStopped.")?;
            push_session_reason(alloc, out, reason)
        }
        AttachError::RemoteClosedWithError(error) => {
            push_with(alloc, out, b"RemoteClosedWithError", error)
        }
        other => push_word(out, attach_name(other)),
    }
}

/// Adds the words in front, and why a link is not attached.
pub fn push_attach(
    alloc: Global,
    out: &mut Vec<u8>,
    front: &[u8],
    error: &AttachError,
) -> Result<(), AllocError>
    ensures { OnOk result (out.new.items ≡ out.old.items ++ (front.now ++ attach_text error.now)) }
{
    out.extend_from_slice(front)?;
    push_attach_error(alloc, out, error)?;
    Ok(())
}

/// Adds why an end of a link is not attached at an end that accepts it.
fn push_placed(
    alloc: Global,
    out: &mut Vec<u8>,
    place: &[u8],
    error: &AttachError,
) -> Result<(), AllocError>
    ensures { OnOk result (out.new.items ≡ out.old.items ++ placed_text place.now error.now) }
{
    if let AttachError::DynamicRefused = error {
        return push_word(out, b"DynamicRefused");
    }
    out.extend_from_slice(place)?;
    push_attach_error(alloc, out, error)
}

/// Adds why a link is not accepted.
fn push_accept_error(
    alloc: Global,
    out: &mut Vec<u8>,
    error: &AcceptError,
) -> Result<(), AllocError>
    ensures { OnOk result (out.new.items ≡ out.old.items ++ accept_text error.now) }
{
    match error {
        AcceptError::LocalSender(error) => push_placed(alloc, out, b"LocalSender.", error),
        AcceptError::LocalReceiver(error) => push_placed(alloc, out, b"LocalReceiver.", error),
    }
}

/// Adds the words in front, and why a link is not accepted.
pub fn push_accept(
    alloc: Global,
    out: &mut Vec<u8>,
    front: &[u8],
    error: &AcceptError,
) -> Result<(), AllocError>
    ensures { OnOk result (out.new.items ≡ out.old.items ++ (front.now ++ accept_text error.now)) }
{
    out.extend_from_slice(front)?;
    push_accept_error(alloc, out, error)?;
    Ok(())
}

fn push_link_state_error(
    alloc: Global,
    out: &mut Vec<u8>,
    error: &LinkStateError,
) -> Result<(), AllocError>
    ensures { OnOk result (out.new.items ≡ out.old.items ++ link_state_text error.now) }
{
    match error {
        LinkStateError::IllegalState => push_word(out, b"IllegalState"),
        LinkStateError::SessionStopped(reason) => {
            out.extend_from_slice(b"SessionStopped.")?;
            push_session_reason(alloc, out, reason)
        }
        LinkStateError::RemoteDetached => push_word(out, b"RemoteDetached"),
        LinkStateError::RemoteDetachedWithError(error) => {
            push_with(alloc, out, b"RemoteDetachedWithError", error)
        }
        LinkStateError::RemoteClosed => push_word(out, b"RemoteClosed"),
        LinkStateError::RemoteClosedWithError(error) => {
            push_with(alloc, out, b"RemoteClosedWithError", error)
        }
        LinkStateError::ExpectImmediateDetach => push_word(out, b"ExpectImmediateDetach"),
    }
}

/// Adds the words in front, and why a link takes no call that sends or receives.
fn push_link_state(
    alloc: Global,
    out: &mut Vec<u8>,
    front: &[u8],
    error: &LinkStateError,
) -> Result<(), AllocError>
    ensures { OnOk result (out.new.items ≡ out.old.items ++ (front.now ++ link_state_text error.now)) }
{
    out.extend_from_slice(front)?;
    push_link_state_error(alloc, out, error)?;
    Ok(())
}

/// Adds why a link takes no call that settles deliveries or gives credit.
fn push_illegal_state_error(
    alloc: Global,
    out: &mut Vec<u8>,
    error: &IllegalLinkStateError,
) -> Result<(), AllocError>
    ensures { OnOk result (out.new.items ≡ out.old.items ++ illegal_state_text error.now) }
{
    match error {
        IllegalLinkStateError::Memory(_) => push_word(out, b"Memory"),
        IllegalLinkStateError::IllegalState => push_word(out, b"IllegalState"),
        IllegalLinkStateError::SessionStopped(reason) => {
            out.extend_from_slice(b"SessionStopped.")?;
            push_session_reason(alloc, out, reason)
        }
    }
}

/// Adds the words in front, and why a link takes no call that settles deliveries or gives credit.
pub fn push_illegal_state(
    alloc: Global,
    out: &mut Vec<u8>,
    front: &[u8],
    error: &IllegalLinkStateError,
) -> Result<(), AllocError>
    ensures { OnOk result (out.new.items ≡ out.old.items ++ (front.now ++ illegal_state_text error.now)) }
{
    out.extend_from_slice(front)?;
    push_illegal_state_error(alloc, out, error)?;
    Ok(())
}

fn push_detach_error(
    alloc: Global,
    out: &mut Vec<u8>,
    error: &DetachError,
) -> Result<(), AllocError>
    ensures { OnOk result (out.new.items ≡ out.old.items ++ detach_text error.now) }
{
    match error {
        DetachError::IllegalState => push_word(out, b"IllegalState"),
        DetachError::SessionStopped(reason) => {
            out.extend_from_slice(b"SessionStopped.")?;
            push_session_reason(alloc, out, reason)
        }
        DetachError::RemoteDetachedWithError(error) => {
            push_with(alloc, out, b"RemoteDetachedWithError", error)
        }
        DetachError::ClosedByRemote => push_word(out, b"ClosedByRemote"),
        DetachError::DetachedByRemote => push_word(out, b"DetachedByRemote"),
        DetachError::RemoteClosedWithError(error) => {
            push_with(alloc, out, b"RemoteClosedWithError", error)
        }
    }
}

/// Adds the words in front, and why a link is not detached or closed as it was asked, or how the peer has detached it.
pub fn push_detach(
    alloc: Global,
    out: &mut Vec<u8>,
    front: &[u8],
    error: &DetachError,
) -> Result<(), AllocError>
    ensures { OnOk result (out.new.items ≡ out.old.items ++ (front.now ++ detach_text error.now)) }
{
    out.extend_from_slice(front)?;
    push_detach_error(alloc, out, error)?;
    Ok(())
}

fn push_number(alloc: Global, out: &mut Vec<u8>, number: u64) -> Result<(), AllocError>
    ensures { OnOk result (out.new.items ≡ out.old.items ++ decimal number) }
{
    let text = format!(in alloc; "{number}")?;
    out.extend_from_slice(text.as_bytes())?;
    Ok(())
}

/// Adds the size of a message and the largest one, in bytes.
fn push_size(alloc: Global, out: &mut Vec<u8>, size: u64, most: u64) -> Result<(), AllocError>
    ensures { OnOk result (out.new.items ≡ out.old.items ++ size_text size most) }
{
    out.extend_from_slice(b"MessageSizeExceeded ")?;
    push_number(alloc, out, size)?;
    out.push(b' ')?;
    push_number(alloc, out, most)?;
    Ok(())
}

/// Adds why a message is not sent, or has no outcome.
fn push_send_error(alloc: Global, out: &mut Vec<u8>, error: &SendError) -> Result<(), AllocError>
    ensures { OnOk result (out.new.items ≡ out.old.items ++ send_text error.now) }
{
    match error {
        SendError::Memory(_) => push_word(out, b"Memory"),
        SendError::LinkStateError(error) => {
            push_link_state(alloc, out, b"LinkStateError.", error)
        }
        SendError::Detached(error) => push_detach(alloc, out, b"Detached.", error),
        SendError::NonTerminalDeliveryState => push_word(out, b"NonTerminalDeliveryState"),
        SendError::IllegalDeliveryState => push_word(out, b"IllegalDeliveryState"),
        SendError::MessageSizeExceeded { size, max_size } => {
            push_size(alloc, out, *size, *max_size)
        }
        SendError::MessageEncodeError => push_word(out, b"MessageEncodeError"),
    }
}

/// Adds the words in front, and why a message is not sent, or has no outcome.
pub fn push_send(
    alloc: Global,
    out: &mut Vec<u8>,
    front: &[u8],
    error: &SendError,
) -> Result<(), AllocError>
    ensures { OnOk result (out.new.items ≡ out.old.items ++ (front.now ++ send_text error.now)) }
{
    out.extend_from_slice(front)?;
    push_send_error(alloc, out, error)?;
    Ok(())
}

fn mode_name(mode: Option<ReceiverSettleMode>) -> &'static [u8]
    ensures { result.now ≡ mode_text mode }
{
    match mode {
        None => b"-",
        Some(ReceiverSettleMode::First) => b"first",
        Some(ReceiverSettleMode::Second) => b"second",
    }
}

fn base_name(error: BaseError) -> &'static [u8]
    ensures { result.now ≡ base_text error }
{
    match error {
        BaseError::Memory(_) => b"Memory",
        BaseError::Decode => b"Decode",
        BaseError::Size => b"Size",
    }
}

/// Adds the number, the tag and the settle mode of a delivery.
#[tactic(auto, unfolding(crate::specs::LinkText::info_text))]
fn push_info(alloc: Global, out: &mut Vec<u8>, info: &DeliveryInfo) -> Result<(), AllocError>
    ensures { OnOk result (out.new.items ≡ out.old.items ++ info_text info.now) }
{
    push_number(alloc, out, u64::from(info.delivery_id))?;
    out.push(b' ')?;
    push_bytes(out, info.delivery_tag.as_slice())?;
    out.push(b' ')?;
    out.extend_from_slice(mode_name(info.rcv_settle_mode))?;
    Ok(())
}

/// Adds a delivery whose bytes are no message.
fn push_decode(
    alloc: Global,
    out: &mut Vec<u8>,
    info: &DeliveryInfo,
    error: BaseError,
) -> Result<(), AllocError>
    ensures { OnOk result (out.new.items ≡ out.old.items ++ decode_text info.now error) }
{
    out.extend_from_slice(b"MessageDecode ")?;
    push_info(alloc, out, info)?;
    push_words(out, b" ", base_name(error))?;
    Ok(())
}

/// Adds why there is no message.
fn push_recv_error(alloc: Global, out: &mut Vec<u8>, error: &RecvError) -> Result<(), AllocError>
    ensures { OnOk result (out.new.items ≡ out.old.items ++ recv_text error.now) }
{
    match error {
        RecvError::Memory(_) => push_word(out, b"Memory"),
        RecvError::LinkStateError(error) => {
            push_link_state(alloc, out, b"LinkStateError.", error)
        }
        RecvError::TransferLimitExceeded => push_word(out, b"TransferLimitExceeded"),
        RecvError::DeliveryIdIsNone => push_word(out, b"DeliveryIdIsNone"),
        RecvError::DeliveryTagIsNone => push_word(out, b"DeliveryTagIsNone"),
        RecvError::MessageDecode { info, source } => push_decode(alloc, out, info, *source),
        RecvError::IllegalRcvSettleModeInTransfer => {
            push_word(out, b"IllegalRcvSettleModeInTransfer")
        }
        RecvError::InconsistentFieldInMultiFrameDelivery => {
            push_word(out, b"InconsistentFieldInMultiFrameDelivery")
        }
        RecvError::MessageSizeExceeded { size, max_size } => {
            push_size(alloc, out, *size, *max_size)
        }
        RecvError::TransactionalAcquisitionIsNotImeplemented => {
            push_word(out, b"TransactionalAcquisitionIsNotImeplemented")
        }
    }
}

/// Adds the words in front, and why there is no message.
pub fn push_recv(
    alloc: Global,
    out: &mut Vec<u8>,
    front: &[u8],
    error: &RecvError,
) -> Result<(), AllocError>
    ensures { OnOk result (out.new.items ≡ out.old.items ++ (front.now ++ recv_text error.now)) }
{
    out.extend_from_slice(front)?;
    push_recv_error(alloc, out, error)?;
    Ok(())
}
