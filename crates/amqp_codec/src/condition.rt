//! The conditions of errors (OASIS AMQP 1.0, part 2, sections 2.8.15 to 2.8.18).
ghost use Rattle.std.specs.Prelude.{◌≡◌, Some, IfOk, IfSome};
ghost use Rattle.amqp_codec.specs.declared.condition.Condition.{Condition};
ghost use Rattle.amqp_codec.specs.Condition.{symbol_of, condition_named, error_of};

use amqp_composites::Error;
use amqp_text::{Symbol, SymbolError};
use std::alloc::{AllocError, Global};

/// What the standard calls an error.
#[derive(Clone, Copy, Debug, PartialEq, Eq)]
pub enum Condition {
    /// An internal error: a person may have to look into it.
    InternalError,
    /// The peer works with something that is not there.
    NotFound,
    /// The peer works with something that it has no leave for.
    UnauthorizedAccess,
    /// Data could not be decoded.
    DecodeError,
    /// The peer goes beyond what it may take.
    ResourceLimitExceeded,
    /// The peer uses a frame in a way that is not allowed.
    NotAllowed,
    /// A field of a frame is not valid.
    InvalidField,
    /// The peer uses what is not implemented here.
    NotImplemented,
    /// The peer works with something that another uses alone.
    ResourceLocked,
    /// A precondition does not hold.
    PreconditionFailed,
    /// What the peer works with is deleted.
    ResourceDeleted,
    /// The peer sends a frame that its state does not allow.
    IllegalState,
    /// The answer does not fit into a frame of the size that was agreed.
    FrameSizeTooSmall,
    /// An operator closed the connection.
    ConnectionForced,
    /// What came is no valid frame.
    FramingError,
    /// The container is to be reached elsewhere.
    ConnectionRedirect,
    /// The peer goes beyond the incoming window of the session.
    WindowViolation,
    /// Input came for a link that was detached with an error.
    ErrantLink,
    /// An Attach has a handle that is in use.
    HandleInUse,
    /// A frame that is no Attach has a handle of no link.
    UnattachedHandle,
    /// An operator detached the link.
    DetachForced,
    /// The peer sends more than its credit.
    TransferLimitExceeded,
    /// The peer sends a larger message than the link takes.
    MessageSizeExceeded,
    /// The address is to be reached elsewhere.
    LinkRedirect,
    /// The link is attached elsewhere.
    Stolen,
}

impl Condition {
    /// The symbol's text.
    pub fn as_str(self) -> &'static str
        ensures { result.now ≡ symbol_of self }
    {
        match self {
            Condition::InternalError => "amqp:internal-error",
            Condition::NotFound => "amqp:not-found",
            Condition::UnauthorizedAccess => "amqp:unauthorized-access",
            Condition::DecodeError => "amqp:decode-error",
            Condition::ResourceLimitExceeded => "amqp:resource-limit-exceeded",
            Condition::NotAllowed => "amqp:not-allowed",
            Condition::InvalidField => "amqp:invalid-field",
            Condition::NotImplemented => "amqp:not-implemented",
            Condition::ResourceLocked => "amqp:resource-locked",
            Condition::PreconditionFailed => "amqp:precondition-failed",
            Condition::ResourceDeleted => "amqp:resource-deleted",
            Condition::IllegalState => "amqp:illegal-state",
            Condition::FrameSizeTooSmall => "amqp:frame-size-too-small",
            Condition::ConnectionForced => "amqp:connection:forced",
            Condition::FramingError => "amqp:connection:framing-error",
            Condition::ConnectionRedirect => "amqp:connection:redirect",
            Condition::WindowViolation => "amqp:session:window-violation",
            Condition::ErrantLink => "amqp:session:errant-link",
            Condition::HandleInUse => "amqp:session:handle-in-use",
            Condition::UnattachedHandle => "amqp:session:unattached-handle",
            Condition::DetachForced => "amqp:link:detach-forced",
            Condition::TransferLimitExceeded => "amqp:link:transfer-limit-exceeded",
            Condition::MessageSizeExceeded => "amqp:link:message-size-exceeded",
            Condition::LinkRedirect => "amqp:link:redirect",
            Condition::Stolen => "amqp:link:stolen",
        }
    }

    /// The symbol; the one error is want of memory.
    pub fn to_symbol(self, alloc: Global) -> Result<Symbol, AllocError>
        ensures { IfOk result (λ s. s ≡ symbol_of self) }
    {
        match Symbol::from_str(alloc, self.as_str()) {
            Ok(symbol) => Ok(symbol),
            Err(SymbolError::Memory(error)) => Err(error),
            Err(SymbolError::NotAscii) => unreachable!(),
        }
    }

    /// The condition with that symbol: none exactly where it is the symbol of none of them.
    pub fn from_symbol(symbol: &Symbol) -> Option<Condition>
        ensures found { IfSome result (λ c. symbol_of c ≡ symbol.now) }
        ensures only { (c : Condition) → symbol_of c ≡ symbol.now → result ≡ Some c }
    {
        condition_named(symbol.as_str())
    }
}

const CONDITIONS: [Condition; 25] = [
    Condition::InternalError,
    Condition::NotFound,
    Condition::UnauthorizedAccess,
    Condition::DecodeError,
    Condition::ResourceLimitExceeded,
    Condition::NotAllowed,
    Condition::InvalidField,
    Condition::NotImplemented,
    Condition::ResourceLocked,
    Condition::PreconditionFailed,
    Condition::ResourceDeleted,
    Condition::IllegalState,
    Condition::FrameSizeTooSmall,
    Condition::ConnectionForced,
    Condition::FramingError,
    Condition::ConnectionRedirect,
    Condition::WindowViolation,
    Condition::ErrantLink,
    Condition::HandleInUse,
    Condition::UnattachedHandle,
    Condition::DetachForced,
    Condition::TransferLimitExceeded,
    Condition::MessageSizeExceeded,
    Condition::LinkRedirect,
    Condition::Stolen,
];

/// The condition with that symbol.
fn condition_named(name: &str) -> Option<Condition>
    ensures { result ≡ condition_named name.now }
{
    CONDITIONS
        .iter()
        .copied()
        .find(|condition| name == condition.as_str())
}

/// The error with that condition and nothing else (section 2.8.14). The one error is want of memory.
pub fn error_of(alloc: Global, condition: Condition) -> Result<Error, AllocError>
    ensures { IfOk result (λ e. e ≡ error_of condition) }
{
    let condition = condition.to_symbol(alloc)?;
    Ok(Error {
        condition,
        description: None,
        info: None,
    })
}
