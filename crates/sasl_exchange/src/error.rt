//! Why a negotiation fails.
ghost use Rattle.std.specs.Prelude.{◌≡◌, IfOk};
ghost use Rattle.sasl_exchange.specs.declared.error.NegotiationError.TheVariants.{Memory};

use crate::bodies::clone_data;
use amqp_sasl_bodies::sasl_code::SaslCode;
use amqp_text::Binary;
use amqp_wire::link::IoKind;
use sasl_scram::error::ScramErrorKind;
use std::alloc::{AllocError, Global};
use thiserror::Error;

/// Why a negotiation fails.
#[derive(Debug, Drop, Error)]
pub enum NegotiationError {
    /// There was not enough memory; the call may be made again.
    #[error("Memory")]
    Memory(AllocError),
    /// The protocol header read is not that of the SASL layer, version 1.0.0 (part 5, section
    /// 5.3.2). It holds the eight bytes read.
    #[error("ProtocolHeaderMismatch")]
    ProtocolHeaderMismatch([u8; 8]),
    /// The own mechanism is not in the list read, the header read after the negotiation is not
    /// that of AMQP 1.0.0, or a frame read is of another type than SASL.
    #[error("NotImplemented")]
    NotImplemented,
    /// The outcome is not `Ok`: at a client it was read, at a listener it was written.
    #[error("SaslError")]
    SaslError {
        /// The outcome.
        code: SaslCode,
        /// What came with it.
        additional_data: Option<Binary>,
    },
    /// A check of the mechanism failed at a client, or an own user or password is outside the
    /// profile.
    #[error("ScramError")]
    ScramError(ScramErrorKind),
    /// The link failed, or its input ended.
    #[error("Io")]
    Io(IoKind),
    /// The body of a SASL frame read is none of the five.
    #[error("DecodeError")]
    DecodeError,
    /// A client read a SASL body out of order.
    #[error("IllegalState")]
    IllegalState,
    /// The size or data offset of a frame read is refused, or an own frame would have more than
    /// 512 bytes (part 5, section 5.3.1).
    #[error("FramingError")]
    FramingError,
}

impl From<AllocError> for NegotiationError {
    ghost from_gives = { λ a e. e ≡ Memory a };

    fn from(error: AllocError) -> Self {
        NegotiationError::Memory(error)
    }
}

impl NegotiationError {
    /// A copy; the one error is want of memory.
    pub fn try_clone(&self, alloc: Global) -> Result<Self, AllocError>
        ensures { IfOk result (λ e. e ≡ self.now) }
    {
        match self {
            NegotiationError::Memory(error) => Ok(NegotiationError::Memory(*error)),
            NegotiationError::ProtocolHeaderMismatch(header) => {
                Ok(NegotiationError::ProtocolHeaderMismatch(*header))
            }
            NegotiationError::NotImplemented => Ok(NegotiationError::NotImplemented),
            NegotiationError::SaslError {
                code,
                additional_data,
            } => {
                let additional_data = clone_data(alloc, additional_data)?;
                Ok(NegotiationError::SaslError {
                    code: *code,
                    additional_data,
                })
            }
            NegotiationError::ScramError(kind) => Ok(NegotiationError::ScramError(*kind)),
            NegotiationError::Io(kind) => Ok(NegotiationError::Io(*kind)),
            NegotiationError::DecodeError => Ok(NegotiationError::DecodeError),
            NegotiationError::IllegalState => Ok(NegotiationError::IllegalState),
            NegotiationError::FramingError => Ok(NegotiationError::FramingError),
        }
    }
}
