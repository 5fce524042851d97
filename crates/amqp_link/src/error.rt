//! Why a link is not attached, and why a call on it is refused (OASIS AMQP 1.0, part 2, sections 2.6.3, 2.6.6 and 2.8.15).
ghost use Rattle.std.specs.Prelude.{◌≡◌, Some, IfOk};
ghost use Rattle.std.specs.Option.{option_map};
ghost use Rattle.amqp_link.specs.Faults.{condition_of, name_of, described, error_for, told_of};

use amqp_composites::error::Error as AmqpError;
use amqp_data::{Symbol, Text};
use amqp_frames::{AllocLinkError, SessionStopReason};
use std::alloc::{AllocError, Global};
use thiserror::Error;

/// What an end refuses in the Attach that it has read.
#[derive(Clone, Copy, Debug, PartialEq, Eq)]
pub enum AttachFault {
    /// Another frame came before the Attach.
    NonAttachFrameReceived,
    /// Another frame than a Detach followed an Attach without a terminus.
    ExpectImmediateDetach,
    /// The target is a coordinator of transactions.
    CoordinatorIsNotImplemented,
    /// There is no target.
    IncomingTargetIsNone,
    /// There is no source.
    IncomingSourceIsNone,
    /// A sender has no initial-delivery-count.
    InitialDeliveryCountIsNone,
    /// The sender's settle mode is not the one that was asked for.
    SndSettleModeNotSupported,
    /// A target that is to be made has no address.
    TargetAddressIsNoneWhenDynamicIsTrue,
    /// A source that is to be made by the reader has an address.
    SourceAddressIsSomeWhenDynamicIsTrue,
    /// A target that is to be made by the reader has an address.
    TargetAddressIsSomeWhenDynamicIsTrue,
    /// A source that was made has no address.
    SourceAddressIsNoneWhenDynamicIsTrue,
    /// A terminus that is not to be made has properties of its node.
    DynamicNodePropertiesIsSomeWhenDynamicIsFalse,
    /// This end makes no nodes.
    DynamicRefused,
}

/// Why a link is not attached.
#[derive(Debug, Drop, Error)]
pub enum AttachError {
    /// There was not enough memory.
    #[error("Memory")]
    Memory(AllocError),
    /// The session has stopped.
    #[error("SessionStopped")]
    SessionStopped(SessionStopReason),
    /// The session is not begun at both ends.
    #[error("SessionNotMapped")]
    SessionNotMapped,
    /// There is a link with that name.
    #[error("DuplicatedLinkName")]
    DuplicatedLinkName,
    /// Each handle is taken.
    #[error("HandleMaxReached")]
    HandleMaxReached,
    /// The link is not being attached.
    #[error("IllegalState")]
    IllegalState,
    /// The peer has closed the link for that error.
    #[error("RemoteClosedWithError")]
    RemoteClosedWithError(AmqpError),
    /// Another frame came before the Attach.
    #[error("NonAttachFrameReceived")]
    NonAttachFrameReceived,
    /// Another frame than a Detach followed an Attach without a terminus.
    #[error("ExpectImmediateDetach")]
    ExpectImmediateDetach,
    /// The target is a coordinator of transactions.
    #[error("CoordinatorIsNotImplemented")]
    CoordinatorIsNotImplemented,
    /// There is no target.
    #[error("IncomingTargetIsNone")]
    IncomingTargetIsNone,
    /// There is no source.
    #[error("IncomingSourceIsNone")]
    IncomingSourceIsNone,
    /// A sender has no initial-delivery-count.
    #[error("InitialDeliveryCountIsNone")]
    InitialDeliveryCountIsNone,
    /// The sender's settle mode is not the one that was asked for.
    #[error("SndSettleModeNotSupported")]
    SndSettleModeNotSupported,
    /// A target that is to be made has no address.
    #[error("TargetAddressIsNoneWhenDynamicIsTrue")]
    TargetAddressIsNoneWhenDynamicIsTrue,
    /// A source that is to be made by the reader has an address.
    #[error("SourceAddressIsSomeWhenDynamicIsTrue")]
    SourceAddressIsSomeWhenDynamicIsTrue,
    /// A target that is to be made by the reader has an address.
    #[error("TargetAddressIsSomeWhenDynamicIsTrue")]
    TargetAddressIsSomeWhenDynamicIsTrue,
    /// A source that was made has no address.
    #[error("SourceAddressIsNoneWhenDynamicIsTrue")]
    SourceAddressIsNoneWhenDynamicIsTrue,
    /// A terminus that is not to be made has properties of its node.
    #[error("DynamicNodePropertiesIsSomeWhenDynamicIsFalse")]
    DynamicNodePropertiesIsSomeWhenDynamicIsFalse,
    /// This end makes no nodes.
    #[error("DynamicRefused")]
    DynamicRefused,
}

/// Why a sender is not attached.
pub type SenderAttachError = AttachError;

/// Why a receiver is not attached.
pub type ReceiverAttachError = AttachError;

impl From<AllocError> for AttachError {
    ghost use Rattle.amqp_link.specs.declared.error.AttachError.TheVariants.{Memory};

    ghost from_gives = { λ a e. e ≡ Memory a };

    fn from(error: AllocError) -> Self {
        AttachError::Memory(error)
    }
}

impl From<AllocLinkError> for AttachError {
    ghost use Rattle.std.specs.Prelude.{◌≡◌};
    ghost use Rattle.amqp_link.specs.Faults.{told_of_place};

    ghost from_gives = { λ x e. e ≡ told_of_place x };

    fn from(error: AllocLinkError) -> Self {
        match error {
            AllocLinkError::Memory(error) => AttachError::Memory(error),
            AllocLinkError::SessionStopped(reason) => AttachError::SessionStopped(reason),
            AllocLinkError::SessionNotMapped => AttachError::SessionNotMapped,
            AllocLinkError::DuplicatedLinkName => AttachError::DuplicatedLinkName,
            AllocLinkError::HandleMaxReached => AttachError::HandleMaxReached,
        }
    }
}

/// Why a link takes no call that sends or receives.
#[derive(Debug, Drop, Error)]
pub enum LinkStateError {
    /// This end has closed the link, or never attached it.
    #[error("IllegalState")]
    IllegalState,
    /// The session has stopped.
    #[error("SessionStopped")]
    SessionStopped(SessionStopReason),
    /// The peer has detached the link.
    #[error("RemoteDetached")]
    RemoteDetached,
    /// The peer has detached the link for that error.
    #[error("RemoteDetachedWithError")]
    RemoteDetachedWithError(AmqpError),
    /// The peer has closed the link.
    #[error("RemoteClosed")]
    RemoteClosed,
    /// The peer has closed the link for that error.
    #[error("RemoteClosedWithError")]
    RemoteClosedWithError(AmqpError),
    /// Another frame than a Detach followed an Attach without a terminus. No call answers it.
    #[error("ExpectImmediateDetach")]
    ExpectImmediateDetach,
}

/// Why a link takes no call that settles deliveries or gives credit.
#[derive(Debug, Drop, Error)]
pub enum IllegalLinkStateError {
    /// There was not enough memory.
    #[error("Memory")]
    Memory(AllocError),
    /// The link is not attached here.
    #[error("IllegalState")]
    IllegalState,
    /// The session has stopped.
    #[error("SessionStopped")]
    SessionStopped(SessionStopReason),
}

/// Why deliveries are not settled.
pub type DispositionError = IllegalLinkStateError;

/// Why no credit is given.
pub type FlowError = IllegalLinkStateError;

impl From<AllocError> for IllegalLinkStateError {
    ghost use Rattle.amqp_link.specs.declared.error.IllegalLinkStateError.TheVariants.{Memory};

    ghost from_gives = { λ a e. e ≡ Memory a };

    fn from(error: AllocError) -> Self {
        IllegalLinkStateError::Memory(error)
    }
}

/// Why a link is not detached or closed as it was asked, or how the peer has detached it.
#[derive(Debug, Drop, Error)]
pub enum DetachError {
    /// The link was abandoned or never attached, or it could not be closed once it was attached again.
    #[error("IllegalState")]
    IllegalState,
    /// The session has stopped.
    #[error("SessionStopped")]
    SessionStopped(SessionStopReason),
    /// The peer has detached the link for that error.
    #[error("RemoteDetachedWithError")]
    RemoteDetachedWithError(AmqpError),
    /// The peer has closed the link.
    #[error("ClosedByRemote")]
    ClosedByRemote,
    /// The peer has detached the link.
    #[error("DetachedByRemote")]
    DetachedByRemote,
    /// The peer has closed the link for that error.
    #[error("RemoteClosedWithError")]
    RemoteClosedWithError(AmqpError),
}

/// The symbol that the bytes spell, each of which is ASCII.
pub(crate) fn symbol(alloc: Global, bytes: &[u8]) -> Result<Symbol, AllocError>
    ensures { IfOk result (λ s. s ≡ bytes.now) }
{
    match Symbol::from_slice(alloc, bytes) {
        Ok(symbol) => Ok(symbol),
        Err(_) => Err(AllocError),
    }
}

fn some_symbol(alloc: Global, bytes: &[u8]) -> Result<Option<Symbol>, AllocError>
    ensures { IfOk result (λ s. s ≡ Some bytes.now) }
{
    let symbol = symbol(alloc, bytes)?;
    Ok(Some(symbol))
}

impl AttachFault {
    /// The condition of the error that the peer is told, if it is told one.
    fn condition(self, alloc: Global) -> Result<Option<Symbol>, AllocError>
        ensures { IfOk result (λ s. s ≡ condition_of self) }
    {
        match self {
            AttachFault::NonAttachFrameReceived | AttachFault::ExpectImmediateDetach => {
                some_symbol(alloc, b"amqp:not-allowed")
            }
            AttachFault::CoordinatorIsNotImplemented | AttachFault::DynamicRefused => {
                some_symbol(alloc, b"amqp:not-implemented")
            }
            AttachFault::IncomingTargetIsNone
            | AttachFault::IncomingSourceIsNone
            | AttachFault::SndSettleModeNotSupported => Ok(None),
            AttachFault::InitialDeliveryCountIsNone
            | AttachFault::TargetAddressIsNoneWhenDynamicIsTrue
            | AttachFault::SourceAddressIsSomeWhenDynamicIsTrue
            | AttachFault::TargetAddressIsSomeWhenDynamicIsTrue
            | AttachFault::SourceAddressIsNoneWhenDynamicIsTrue
            | AttachFault::DynamicNodePropertiesIsSomeWhenDynamicIsFalse => {
                some_symbol(alloc, b"amqp:invalid-field")
            }
        }
    }

    /// Its name, by which it is described to the peer.
    fn name(self) -> Option<&'static str>
        ensures { option_map (λ t. t.now) result ≡ name_of self }
    {
        match self {
            AttachFault::NonAttachFrameReceived => Some("NonAttachFrameReceived"),
            AttachFault::ExpectImmediateDetach => Some("ExpectImmediateDetach"),
            AttachFault::CoordinatorIsNotImplemented => Some("CoordinatorIsNotImplemented"),
            AttachFault::InitialDeliveryCountIsNone => Some("InitialDeliveryCountIsNone"),
            AttachFault::TargetAddressIsNoneWhenDynamicIsTrue => Some(
                "TargetAddressIsNoneWhenDynamicIsTrue",
            ),
            AttachFault::SourceAddressIsSomeWhenDynamicIsTrue => Some(
                "SourceAddressIsSomeWhenDynamicIsTrue",
            ),
            AttachFault::TargetAddressIsSomeWhenDynamicIsTrue => Some(
                "TargetAddressIsSomeWhenDynamicIsTrue",
            ),
            AttachFault::SourceAddressIsNoneWhenDynamicIsTrue => Some(
                "SourceAddressIsNoneWhenDynamicIsTrue",
            ),
            AttachFault::DynamicNodePropertiesIsSomeWhenDynamicIsFalse => Some(
                "DynamicNodePropertiesIsSomeWhenDynamicIsFalse",
            ),
            AttachFault::IncomingTargetIsNone
            | AttachFault::IncomingSourceIsNone
            | AttachFault::SndSettleModeNotSupported
            | AttachFault::DynamicRefused => None,
        }
    }

    fn description(self, alloc: Global) -> Result<Option<Text>, AllocError>
        ensures { IfOk result (λ t. t ≡ name_of self) }
    {
        match self.name() {
            Some(name) => {
                let text = Text::from_str(alloc, name)?;
                Ok(Some(text))
            }
            None => Ok(None),
        }
    }

    /// The error that the peer is told, if it is told one.
    pub(crate) fn error(self, alloc: Global) -> Result<Option<AmqpError>, AllocError>
        ensures { IfOk result (λ e. e ≡ error_for self) }
    {
        let description = self.description(alloc)?;
        let condition = self.condition(alloc)?;
        match condition {
            Some(condition) => Ok(Some(AmqpError {
                condition,
                description,
                info: None,
            })),
            None => Ok(None),
        }
    }

    /// What this end's own caller is told.
    pub(crate) fn told(self) -> AttachError
        ensures { result ≡ told_of self }
    {
        match self {
            AttachFault::NonAttachFrameReceived => AttachError::NonAttachFrameReceived,
            AttachFault::ExpectImmediateDetach => AttachError::ExpectImmediateDetach,
            AttachFault::CoordinatorIsNotImplemented => AttachError::CoordinatorIsNotImplemented,
            AttachFault::IncomingTargetIsNone => AttachError::IncomingTargetIsNone,
            AttachFault::IncomingSourceIsNone => AttachError::IncomingSourceIsNone,
            AttachFault::InitialDeliveryCountIsNone => AttachError::InitialDeliveryCountIsNone,
            AttachFault::SndSettleModeNotSupported => AttachError::SndSettleModeNotSupported,
            AttachFault::TargetAddressIsNoneWhenDynamicIsTrue =>
                AttachError::TargetAddressIsNoneWhenDynamicIsTrue,
            AttachFault::SourceAddressIsSomeWhenDynamicIsTrue =>
                AttachError::SourceAddressIsSomeWhenDynamicIsTrue,
            AttachFault::TargetAddressIsSomeWhenDynamicIsTrue =>
                AttachError::TargetAddressIsSomeWhenDynamicIsTrue,
            AttachFault::SourceAddressIsNoneWhenDynamicIsTrue =>
                AttachError::SourceAddressIsNoneWhenDynamicIsTrue,
            AttachFault::DynamicNodePropertiesIsSomeWhenDynamicIsFalse =>
                AttachError::DynamicNodePropertiesIsSomeWhenDynamicIsFalse,
            AttachFault::DynamicRefused => AttachError::DynamicRefused,
        }
    }
}
