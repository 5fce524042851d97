//! The hash functions of SCRAM.

ghost use Rattle.std.specs.Prelude.{◌≡◌, ◌<◌, All};
ghost use Rattle.sasl_scram.specs.Hashes.{mechanism_of};

/// The hash function of a SCRAM mechanism.
#[derive(Clone, Copy, Debug, PartialEq, Eq)]
pub enum ScramHash {
    /// SHA-1, of SCRAM-SHA-1 (RFC 5802).
    Sha1,
    /// SHA-256, of SCRAM-SHA-256 (RFC 7677).
    Sha256,
    /// SHA-512, of SCRAM-SHA-512: the form of RFC 7677 with this hash function.
    Sha512,
}

impl ScramHash {
    /// The mechanism's name in the list of mechanisms and in the init (RFC 5802, section 4; RFC 7677, section 4).
    pub fn mechanism(self) -> &'static str
        ensures value { result.now ≡ mechanism_of self }
        ensures ascii { All (λ b. b < 128) result.now }
    {
        match self {
            ScramHash::Sha1 => "SCRAM-SHA-1",
            ScramHash::Sha256 => "SCRAM-SHA-256",
            ScramHash::Sha512 => "SCRAM-SHA-512",
        }
    }
}
