//! Key derivation by an algorithm and its parameters.
#![tactic(auto)]

ghost use Rattle.std.specs.Prelude.{◌≡◌, ◌≤◌, ◌*◌, length};
ghost use Rattle.kdf_core.specs.Algorithm.{output_size};
ghost use Rattle.kdf_core.specs.Params.{rounds_of};
ghost use Rattle.kdf_core.specs.Password.{key_of, IsDefault, IsRecommendedFor, IsSha256With};

use crate::algorithm::Algorithm;
use crate::derivation::pbkdf2_hmac;
use crate::hash::{Sha256Fn, Sha512Fn};
use crate::params::Params;

/// Writes the key that `algorithm` derives from a password and a salt into `out`.
///
/// The rounds are those of `params`, and the length of the key is that of `out`: at most 2^32 - 1 outputs of the hash
/// function (RFC 8018, section 5.2, step 1).
pub fn pbkdf2_hmac_with_params(
    password: &[u8],
    salt: &[u8],
    algorithm: Algorithm,
    params: Params,
    out: &mut [u8],
)
    requires { length out.old ≤ output_size algorithm * u32.MAX }
    ensures { out.new ≡ key_of algorithm password.now salt.now (rounds_of params) (length out.old) }
{
    match algorithm {
        Algorithm::Pbkdf2Sha256 => pbkdf2_hmac::<Sha256Fn>(password, salt, params.rounds(), out),
        Algorithm::Pbkdf2Sha512 => pbkdf2_hmac::<Sha512Fn>(password, salt, params.rounds(), out),
    }
}

/// An algorithm and its parameters.
#[derive(Clone, Copy, Debug, PartialEq, Eq)]
pub struct Pbkdf2 {
    /// The algorithm.
    pub algorithm: Algorithm,

    /// The rounds, and the length of the output that a store asks for.
    pub params: Params,
}

impl Pbkdf2 {
    /// PBKDF2 over SHA-256 with the parameters recommended for it.
    pub const SHA256: Self = Pbkdf2 {
        algorithm: Algorithm::Pbkdf2Sha256,
        params: Params::RECOMMENDED,
    };

    /// PBKDF2 over SHA-512 with the parameters recommended for it.
    pub const SHA512: Self = Pbkdf2 {
        algorithm: Algorithm::Pbkdf2Sha512,
        params: Params::RECOMMENDED_SHA512,
    };

    /// This algorithm with these parameters.
    pub fn new(algorithm: Algorithm, params: Params) -> Self
        ensures algorithm { result.algorithm ≡ algorithm }
        ensures params { result.params ≡ params }
    {
        Pbkdf2 { algorithm, params }
    }

    /// Writes the key derived from a password and a salt into `out`, as `pbkdf2_hmac_with_params` does.
    pub fn hash_password_into(&self, password: &[u8], salt: &[u8], out: &mut [u8])
        requires { length out.old ≤ output_size self.now.algorithm * u32.MAX }
        ensures { out.new ≡ key_of self.now.algorithm password.now salt.now (rounds_of self.now.params) (length out.old) }
    {
        pbkdf2_hmac_with_params(password, salt, self.algorithm, self.params, out);
    }
}

impl Default for Pbkdf2 {
    ghost is_default = { IsDefault };

    fn default() -> Self {
        Self::SHA256
    }
}

impl From<Algorithm> for Pbkdf2 {
    ghost from_gives = { IsRecommendedFor };

    /// The algorithm with the parameters recommended for it.
    fn from(algorithm: Algorithm) -> Self {
        Pbkdf2::new(algorithm, Params::recommended_for(algorithm))
    }
}

impl From<Params> for Pbkdf2 {
    ghost from_gives = { IsSha256With };

    /// The parameters with SHA-256.
    fn from(params: Params) -> Self {
        Pbkdf2::new(Algorithm::RECOMMENDED, params)
    }
}
