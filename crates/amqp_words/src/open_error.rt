//! Why a connection is not opened.
use amqp_composites::error::Error as AmqpError;
use amqp_engine::TransportError;
use amqp_opening::NegotiationError;
use thiserror::Error;

/// Why a connection is not opened.
#[derive(Debug, Error)]
pub enum OpenError {
    /// The negotiation of headers and of the SASL layer failed (part 2, section 2.2; part 5, section 5.3).
    #[error("Negotiation")]
    Negotiation(NegotiationError),
    /// The transport failed, or the own Open is above 512 bytes.
    #[error("TransportError")]
    TransportError(TransportError),
    /// The peer closed the connection in place of opening it.
    #[error("RemoteClosed")]
    RemoteClosed,
    /// The peer closed the connection for that error in place of opening it.
    #[error("RemoteClosedWithError")]
    RemoteClosedWithError(AmqpError),
    /// Another frame than Open or Close came first.
    #[error("IllegalState")]
    IllegalState,
}

// The error is let go by a call, so that no caller sees the parts of what it tells.
impl Drop for OpenError {
    fn drop(self) {
        match self {
            OpenError::Negotiation(error) => drop(error),
            OpenError::TransportError(error) => drop(error),
            OpenError::RemoteClosedWithError(error) => drop(error),
            OpenError::RemoteClosed | OpenError::IllegalState => {}
        }
    }
}
