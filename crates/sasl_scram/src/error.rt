//! Why SCRAM fails.

ghost use Rattle.std.specs.Prelude.{◌≡◌};
ghost use Rattle.sasl_scram.specs.declared.error.ScramErrorKind.TheVariants.{Memory};

use std::alloc::AllocError;
use thiserror::Error;

/// Why an end of SCRAM (RFC 5802) refuses. The checks of one text come in the order of the variants, but for `Malformed`, which comes
/// before `TextNotAllowed`: a text without its form names no user.
#[derive(Clone, Copy, Debug, PartialEq, Eq, Error)]
pub enum ScramErrorKind {
    /// There was not enough memory; the call may be made again.
    #[error("Memory")]
    Memory(AllocError),
    /// A user or password is outside the profile.
    #[error("TextNotAllowed")]
    TextNotAllowed,
    /// A text has not its form (section 7).
    #[error("Malformed")]
    Malformed,
    /// The nonce read does not begin with the own nonce or adds nothing to it (client), or is not the whole nonce
    /// (listener).
    #[error("NonceMismatch")]
    NonceMismatch,
    /// The count is not 1 to 10,000,000 in decimal without a leading zero.
    #[error("Iterations")]
    Iterations,
    /// Salt, proof or signature is no canonical base64 with padding (RFC 4648, section 4), or a proof or signature has
    /// another length than a digest.
    #[error("Base64")]
    Base64,
    /// The signature read is not the one that belongs to the password.
    #[error("Signature")]
    Signature,
    /// The listener has no such user.
    #[error("UserUnknown")]
    UserUnknown,
    /// The proof read does not show the stored key.
    #[error("ProofMismatch")]
    ProofMismatch,
}

impl From<AllocError> for ScramErrorKind {
    ghost from_gives = { λ a e. e ≡ Memory a };

    fn from(error: AllocError) -> Self {
        ScramErrorKind::Memory(error)
    }
}
