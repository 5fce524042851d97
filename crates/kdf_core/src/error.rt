//! Why a call is refused.

use thiserror::Error;

/// The pseudorandom function takes no key of this length.
#[derive(Clone, Copy, Debug, PartialEq, Eq, Error)]
#[error("invalid length")]
pub struct InvalidLength;

/// Why a text or a number gives no algorithm or no parameters.
#[derive(Clone, Copy, Debug, PartialEq, Eq, Error)]
pub enum KdfError {
    /// The text is the identifier of no algorithm.
    #[error("unknown algorithm")]
    Algorithm,

    /// The rounds or the length of the output are out of range.
    #[error("invalid parameters")]
    ParamsInvalid,

    /// The text is no decimal number of rounds.
    #[error("invalid encoding")]
    EncodingInvalid,
}
