//! Errors in the text of a trace: the variants from outside inwards, joined by points, and the
//! fields of the innermost one.
ghost use Rattle.std.specs.Prelude.{◌≡◌, ◌++◌, OnOk};
ghost use Rattle.amqp_script.specs.ErrorText.{io_word, scram_word, negotiation_text, transport_text, remote_text, opening_text, open_text, engine_text, connection_text};

use crate::trace_text::fault::push_fault;
use crate::trace_text::hex::{push_binary, push_named, push_word, push_words};
use amqp_composites::error::Error as AmqpError;
use amqp_engine::error::Error as ConnectionError;
use amqp_sasl_bodies::sasl_code::SaslCode;
use amqp_text::Binary;
use amqp_transport::transport;
use amqp_wire::link::IoKind;
use amqp_words::OpenError;
use sasl_gate::{NegotiationError, ScramErrorKind};
use std::alloc::{AllocError, Global};

fn io_name(kind: IoKind) -> &'static [u8]
    ensures { result.now ≡ io_word kind }
{
    match kind {
        IoKind::Fault => b"Fault",
        IoKind::End => b"End",
    }
}

fn scram_name(kind: ScramErrorKind) -> &'static [u8]
    ensures { result.now ≡ scram_word kind }
{
    match kind {
        ScramErrorKind::Memory(_) => b"Memory",
        ScramErrorKind::TextNotAllowed => b"TextNotAllowed",
        ScramErrorKind::Malformed => b"Malformed",
        ScramErrorKind::NonceMismatch => b"NonceMismatch",
        ScramErrorKind::Iterations => b"Iterations",
        ScramErrorKind::Base64 => b"Base64",
        ScramErrorKind::Signature => b"Signature",
        ScramErrorKind::UserUnknown => b"UserUnknown",
        ScramErrorKind::ProofMismatch => b"ProofMismatch",
    }
}

fn push_outcome(
    alloc: Global,
    out: &mut Vec<u8>,
    code: SaslCode,
    additional: &Option<Binary>,
) -> Result<(), AllocError>
    ensures { let said = negotiation_text (NegotiationError.SaslError code additional.now) in
        OnOk result (out.new.items ≡ out.old.items ++ said) }
{
    let code = code.number();
    let head = format!(in alloc; "SaslError {code} ")?;
    out.extend_from_slice(head.as_bytes())?;
    push_binary(out, additional)?;
    Ok(())
}

fn push_negotiation(
    alloc: Global,
    out: &mut Vec<u8>,
    error: &NegotiationError,
) -> Result<(), AllocError>
    ensures { OnOk result (out.new.items ≡ out.old.items ++ negotiation_text error.now) }
{
    match error {
        NegotiationError::Memory(_) => push_word(out, b"Memory"),
        NegotiationError::ProtocolHeaderMismatch(header) => {
            push_named(out, b"ProtocolHeaderMismatch ", header)
        }
        NegotiationError::NotImplemented => push_word(out, b"NotImplemented"),
        NegotiationError::SaslError {
            code,
            additional_data,
        } => push_outcome(alloc, out, *code, additional_data),
        NegotiationError::ScramError(kind) => push_words(out, b"ScramError.", scram_name(*kind)),
        NegotiationError::Io(kind) => push_words(out, b"Io.", io_name(*kind)),
        NegotiationError::DecodeError => push_word(out, b"DecodeError"),
        NegotiationError::IllegalState => push_word(out, b"IllegalState"),
        NegotiationError::FramingError => push_word(out, b"FramingError"),
    }
}

fn push_transport(out: &mut Vec<u8>, error: &transport::Error) -> Result<(), AllocError>
    ensures { OnOk result (out.new.items ≡ out.old.items ++ transport_text error.now) }
{
    match error {
        transport::Error::Memory(_) => push_word(out, b"TransportError.Memory"),
        transport::Error::Io(kind) => push_words(out, b"TransportError.Io.", io_name(*kind)),
        transport::Error::IdleTimeoutElapsed => push_word(
            out,
            b"TransportError.IdleTimeoutElapsed",
        ),
        transport::Error::DecodeError => push_word(out, b"TransportError.DecodeError"),
        transport::Error::NotImplemented => push_word(out, b"TransportError.NotImplemented"),
        transport::Error::FramingError => push_word(out, b"TransportError.FramingError"),
    }
}

fn push_remote(alloc: Global, out: &mut Vec<u8>, error: &AmqpError) -> Result<(), AllocError>
    ensures { OnOk result (out.new.items ≡ out.old.items ++ remote_text error.now) }
{
    out.extend_from_slice(b"RemoteClosedWithError ")?;
    push_fault(alloc, out, error)?;
    Ok(())
}

fn push_opening(alloc: Global, out: &mut Vec<u8>, error: &OpenError) -> Result<(), AllocError>
    ensures { OnOk result (out.new.items ≡ out.old.items ++ opening_text error.now) }
{
    match error {
        OpenError::Negotiation(error) => {
            out.extend_from_slice(b"Negotiation.")?;
            push_negotiation(alloc, out, error)
        }
        OpenError::TransportError(error) => push_transport(out, error),
        OpenError::RemoteClosed => push_word(out, b"RemoteClosed"),
        OpenError::RemoteClosedWithError(error) => push_remote(alloc, out, error),
        OpenError::IllegalState => push_word(out, b"IllegalState"),
    }
}

/// Adds why a connection is not opened.
pub fn push_open(alloc: Global, out: &mut Vec<u8>, error: &OpenError) -> Result<(), AllocError>
    ensures { OnOk result (out.new.items ≡ out.old.items ++ open_text error.now) }
{
    out.extend_from_slice(b"Open.")?;
    push_opening(alloc, out, error)?;
    Ok(())
}

fn push_engine(alloc: Global, out: &mut Vec<u8>, error: &ConnectionError) -> Result<(), AllocError>
    ensures { OnOk result (out.new.items ≡ out.old.items ++ engine_text error.now) }
{
    match error {
        ConnectionError::Memory(_) => push_word(out, b"Memory"),
        ConnectionError::TransportError(error) => push_transport(out, error),
        ConnectionError::IllegalState => push_word(out, b"IllegalState"),
        ConnectionError::NotImplemented => push_word(out, b"NotImplemented"),
        ConnectionError::NotFound => push_word(out, b"NotFound"),
        ConnectionError::RemoteClosed => push_word(out, b"RemoteClosed"),
        ConnectionError::RemoteClosedWithError(error) => push_remote(alloc, out, error),
    }
}

/// Adds why a call on a connection does not do what it was asked.
pub fn push_connection(
    alloc: Global,
    out: &mut Vec<u8>,
    error: &ConnectionError,
) -> Result<(), AllocError>
    ensures { OnOk result (out.new.items ≡ out.old.items ++ connection_text error.now) }
{
    out.extend_from_slice(b"Connection.")?;
    push_engine(alloc, out, error)?;
    Ok(())
}
