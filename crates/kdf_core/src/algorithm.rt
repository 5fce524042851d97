//! The algorithms of a password store and their identifiers.
#![tactic(auto)]

ghost use Rattle.std.specs.Prelude.{◌≡◌, Some};
ghost use Rattle.kdf_core.specs.Algorithm.{algorithm_id, IsAlgorithmOf, IsRecommended};

use crate::error::KdfError;
use std::convert::AsStr;
use std::fmt;
use std::str::FromStr;

/// PBKDF2 with HMAC over one hash function.
#[derive(Clone, Copy, Debug, PartialEq, Eq, PartialOrd, Ord, Hash)]
pub enum Algorithm {
    /// Over SHA-256.
    Pbkdf2Sha256,

    /// Over SHA-512.
    Pbkdf2Sha512,
}

impl Algorithm {
    /// The identifier of PBKDF2 over SHA-256.
    pub const PBKDF2_SHA256_ID: &'static str = "pbkdf2-sha256";

    /// The identifier of PBKDF2 over SHA-512.
    pub const PBKDF2_SHA512_ID: &'static str = "pbkdf2-sha512";

    /// The algorithm to take where nothing else is asked for.
    pub const RECOMMENDED: Self = Algorithm::Pbkdf2Sha256;

    /// The algorithm with the identifier `id`; `KdfError::Algorithm` exactly where it is the identifier of none.
    pub fn new(id: &str) -> Result<Self, KdfError>
        ensures { IsAlgorithmOf id.now result }
    {
        match id {
            Self::PBKDF2_SHA256_ID => Ok(Algorithm::Pbkdf2Sha256),
            Self::PBKDF2_SHA512_ID => Ok(Algorithm::Pbkdf2Sha512),
            _ => Err(KdfError::Algorithm),
        }
    }

    /// The algorithm's identifier.
    pub fn to_str(self) -> &'static str
        ensures { result.now ≡ algorithm_id self }
    {
        match self {
            Algorithm::Pbkdf2Sha256 => Self::PBKDF2_SHA256_ID,
            Algorithm::Pbkdf2Sha512 => Self::PBKDF2_SHA512_ID,
        }
    }
}

impl Default for Algorithm {
    ghost is_default = { IsRecommended };

    fn default() -> Self {
        Self::RECOMMENDED
    }
}

impl AsStr for Algorithm {
    ghost text = { algorithm_id };

    fn as_str(&self) -> &str {
        self.to_str()
    }
}

impl FromStr for Algorithm {
    type Err = KdfError;

    ghost from_str_gives = { IsAlgorithmOf };

    fn from_str(id: &str) -> Result<Self, KdfError> {
        Algorithm::new(id)
    }
}

impl TryFrom<&str> for Algorithm {
    type Error = KdfError;

    ghost try_from_gives = { λ id r. IsAlgorithmOf id.now r };

    fn try_from(id: &str) -> Result<Self, KdfError> {
        Algorithm::new(id)
    }
}

impl fmt::Display for Algorithm {
    ghost output = { λ algorithm. Some (algorithm_id algorithm) };

    fn fmt<W: fmt::Write>(&self, f: &mut fmt::Formatter<W>) -> fmt::Result {
        f.write_str(self.to_str())
    }
}
